// The group delay in metres of a TEC answer at a carrier (02, request 13).
#![tactic(auto)]

ghost use Rattle.delay.specs.Delay.{told, Delays};

use ask_nodes::MilliTecu;

// Hertz, TECU and metres.
#[derive(Clone, Copy)]
pub struct Delay {
    pub carrier: f64,
    pub tecu: f64,
    pub metres: f64,
}

// The delay at a carrier; none is 02's 25: the carrier is not from 1.0e9 to 2.0e9.
pub fn delay_of(x: MilliTecu, f: f64) -> Option<Delay>
    ensures { Delays x f (told result) }
{
    if f >= 1.0e9 {
        if f <= 2.0e9 {
            let square = f * f;
            let thousandths = x.0 as f64;
            let tecu = thousandths / 1000.0;
            let metres = tecu * 4.03e17 / square;
            return Some(Delay {
                carrier: f,
                tecu: tecu,
                metres: metres,
            });
        }
    }
    None
}
