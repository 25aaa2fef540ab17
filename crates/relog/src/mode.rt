// The compressions that a script can use.
ghost use Rattle.std.specs.Prelude.{⊤};

use crate::fault::Fault;
use aes::Aes128;
use hash::compress::{Compression, DaviesMeyer, Fold, MatyasMeyerOseas, MiyaguchiPreneel};
use speck::Speck128;

// DM is Davies-Meyer, MMO Matyas-Meyer-Oseas and MP Miyaguchi-Preneel.
#[derive(Clone, Copy)]
pub enum Mode {
    Fold,
    DmAes,
    MmoAes,
    MpAes,
    DmSpeck,
    MmoSpeck,
    MpSpeck,
}

impl<'a> TryFrom<&'a str> for Mode {
    type Error = Fault<'a>;

    fn try_from(word: &'a str) -> Result<Mode, Fault<'a>> {
        match word {
            "fold" => Ok(Mode::Fold),
            "dm-aes" => Ok(Mode::DmAes),
            "mmo-aes" => Ok(Mode::MmoAes),
            "mp-aes" => Ok(Mode::MpAes),
            "dm-speck" => Ok(Mode::DmSpeck),
            "mmo-speck" => Ok(Mode::MmoSpeck),
            "mp-speck" => Ok(Mode::MpSpeck),
            _ => Err(Fault::UnknownCompression(word)),
        }
    }
}

// Work that is done under a compression, whichever it is.
pub trait UnderCompression {
    type Output;

    // Relates the work and each output that it may have.
    ghost gives: { Self → Self.Output → Type 0 } = { λ _ _. ⊤ };

    fn run<C: Compression + Drop>(self, compression: C) -> Self::Output
        ensures { gives self result };
}

impl Mode {
    // Does work under the compression that is meant.
    pub fn run<U: UnderCompression>(self, work: U) -> U::Output
        ensures { U.UnderCompression.gives work result }
    {
        match self {
            Mode::Fold => work.run(Fold),
            Mode::DmAes => work.run(DaviesMeyer { cipher: Aes128 }),
            Mode::MmoAes => work.run(MatyasMeyerOseas { cipher: Aes128 }),
            Mode::MpAes => work.run(MiyaguchiPreneel { cipher: Aes128 }),
            Mode::DmSpeck => work.run(DaviesMeyer { cipher: Speck128 }),
            Mode::MmoSpeck => work.run(MatyasMeyerOseas { cipher: Speck128 }),
            Mode::MpSpeck => work.run(MiyaguchiPreneel { cipher: Speck128 }),
        }
    }
}
