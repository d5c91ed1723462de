ghost use Rattle.std.specs.Prelude.{◌≡◌};
ghost use Rattle.poses.specs.Methods.{method_of};

/// The four searches by name.
#[derive(Clone, Copy, Debug, PartialEq, Eq)]
pub enum Method {
    /// The threshold algorithm.
    Ta,
    /// The best position algorithm.
    Bpa,
    /// The best position algorithm that visits no position twice.
    Bpa2,
    /// The search by sorted accesses alone.
    Nra,
}

/// The search of a number: 0 TA, 1 BPA, 2 BPA2, and any other NRA.
impl From<u8> for Method {
    ghost from_gives = { λ number method. method ≡ method_of number };

    fn from(number: u8) -> Method {
        match number {
            0 => Method::Ta,
            1 => Method::Bpa,
            2 => Method::Bpa2,
            _ => Method::Nra,
        }
    }
}
