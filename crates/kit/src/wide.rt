// Numbers as they cross to other languages. One line for each width reads plainer than a trait with the laws of its order.
ghost use Rattle.std.specs.Prelude.{◌≡◌};
ghost use Rattle.kit.specs.Integer.{between?};
ghost use Rattle.kit.specs.Truth.{truth};

pub fn between(low: i64, high: i64, x: i64) -> bool
    ensures { result ≡ truth (between? low high x) }
{
    low <= x && x <= high
}
