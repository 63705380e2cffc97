// The kinds of branches, with their numbers and card letters.
ghost use Rattle.std.specs.Prelude.{◌≡◌, ok_or};
ghost use Rattle.sheet.specs.declared.refusal.Refusal.TheVariants.{NoSuchKind, NoSuchLetter};
ghost use Rattle.sheet.specs.Kinds.{mark, is_source, has_start, kind_numbered, kind_lettered};

use crate::refusal::Refusal;

#[derive(Clone, Copy, PartialEq, Eq, Debug)]
pub enum Kind {
    Resistor,
    Inductor,
    Capacitor,
    VoltageSource,
    CurrentSource,
}

// The number of a kind.
impl From<Kind> for u32 {
    ghost from_gives = { λ k n. n ≡ (mark k).number };

    fn from(kind: Kind) -> u32 {
        match kind {
            Kind::Resistor => 1,
            Kind::Inductor => 2,
            Kind::Capacitor => 3,
            Kind::VoltageSource => 4,
            Kind::CurrentSource => 5,
        }
    }
}

// The letter that cards and listings name a kind by.
impl From<Kind> for u8 {
    ghost from_gives = { λ k b. b ≡ (mark k).letter };

    fn from(kind: Kind) -> u8 {
        match kind {
            Kind::Resistor => b'R',
            Kind::Inductor => b'L',
            Kind::Capacitor => b'C',
            Kind::VoltageSource => b'V',
            Kind::CurrentSource => b'I',
        }
    }
}

// The kind of that number. Refused by 5.
impl TryFrom<u32> for Kind {
    type Error = Refusal;

    ghost try_from_gives = { λ n r. r ≡ ok_or (kind_numbered n) NoSuchKind };

    fn try_from(number: u32) -> Result<Kind, Refusal> {
        match number {
            1 => Ok(Kind::Resistor),
            2 => Ok(Kind::Inductor),
            3 => Ok(Kind::Capacitor),
            4 => Ok(Kind::VoltageSource),
            5 => Ok(Kind::CurrentSource),
            _ => Err(Refusal::NoSuchKind),
        }
    }
}

// The kind of that letter. Refused by 21.
impl TryFrom<u8> for Kind {
    type Error = Refusal;

    ghost try_from_gives = { λ b r. r ≡ ok_or (kind_lettered b) NoSuchLetter };

    fn try_from(letter: u8) -> Result<Kind, Refusal> {
        match letter {
            b'R' => Ok(Kind::Resistor),
            b'L' => Ok(Kind::Inductor),
            b'C' => Ok(Kind::Capacitor),
            b'V' => Ok(Kind::VoltageSource),
            b'I' => Ok(Kind::CurrentSource),
            _ => Err(Refusal::NoSuchLetter),
        }
    }
}

impl Kind {
    // A voltage or current source.
    pub fn is_source(self) -> bool
        ensures { result ≡ is_source self }
    {
        match self {
            Kind::VoltageSource | Kind::CurrentSource => true,
            Kind::Resistor | Kind::Inductor | Kind::Capacitor => false,
        }
    }

    // An inductor or a capacitor: the kinds that may have a start.
    pub fn has_start(self) -> bool
        ensures { result ≡ has_start self }
    {
        match self {
            Kind::Inductor | Kind::Capacitor => true,
            Kind::Resistor | Kind::VoltageSource | Kind::CurrentSource => false,
        }
    }
}
