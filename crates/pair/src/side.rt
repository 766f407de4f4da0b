// The sides of a pair, and their numbers.
ghost use Rattle.std.specs.Prelude.{◌≡◌};
ghost use Rattle.pair.specs.Sides.{side_of, number_of};

use refusal::StoreRefusal;

#[derive(Clone, Copy, PartialEq, Eq, Debug)]
pub enum Side {
    First,
    Second,
}

impl TryFrom<u8> for Side {
    type Error = StoreRefusal;

    ghost try_from_gives = { λ number side. side ≡ side_of number };

    fn try_from(number: u8) -> Result<Side, StoreRefusal> {
        match number {
            1 => Ok(Side::First),
            2 => Ok(Side::Second),
            _ => Err(StoreRefusal::NoSide),
        }
    }
}

impl From<Side> for u8 {
    ghost from_gives = { λ side number. number ≡ number_of side };

    fn from(side: Side) -> u8 {
        match side {
            Side::First => 1,
            Side::Second => 2,
        }
    }
}
