// When stored labels show the least value: each law is the contract of a function that does nothing.
ghost use Rattle.duty_pricing.specs.Exhausting.{Exhausts, ExhaustsDuties};

/// The law that where each stored label of a driver is bettered by a later one, or all its listed steps were tried, no lawful
/// duty inside is worth less than what is known.
pub fn exhaust()
    ensures partials { Exhausts }
    ensures duties { ExhaustsDuties }
{}
