// What a bias block tells, and where the reading of the header stands: the code's types and those of the definitions are the same.
#![tactic(auto)]

// The system is its letter, G or R; bias and RMS in thousandths of a nanosecond.
#[derive(Clone, Copy)]
pub struct Satellite {
    pub system: u8,
    pub number: u32,
    pub bias: i32,
    pub rms: i32,
}

#[derive(Clone, Copy)]
pub struct Station {
    pub system: u8,
    pub name: [u8; 20],
    pub bias: i32,
    pub rms: i32,
}

// Outside aux blocks; inside a bias block; inside another aux block.
#[derive(Clone, Copy)]
pub enum Place {
    Outside,
    Inside,
    Beside,
}

// What a row is: END OF HEADER; a row that tells no bias, after which a place comes; a satellite's; a station's.
#[derive(Clone, Copy)]
pub enum Role {
    Last,
    Skipped(Place),
    OfSatellite,
    OfStation,
}
