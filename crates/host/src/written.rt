// What a call for a sheet answers, of whichever of the three start-ups.
ghost use Rattle.std.specs.Prelude.{◌≡◌};
ghost use Rattle.host.specs.Sheets.{told, declined};

use crate::UNKNOWN;
use sheet::SheetRefusal;

// 0 and how many bytes were written, or the number of the refusal and 0: C takes no `Result`.
#[repr(C)]
#[derive(Clone, Copy)]
pub struct CWritten {
    pub refusal: u8,
    pub len: usize,
}

impl From<Result<usize, SheetRefusal>> for CWritten {
    ghost from_gives = { λ written r. r ≡ told written };

    fn from(written: Result<usize, SheetRefusal>) -> CWritten {
        match written {
            Ok(len) => CWritten { refusal: 0, len },
            Err(refusal) => CWritten {
                refusal: refusal.number(),
                len: 0,
            },
        }
    }
}

impl CWritten {
    // A number in the state is of no case: nothing is written.
    pub fn declined() -> CWritten
        ensures { result ≡ declined }
    {
        CWritten {
            refusal: UNKNOWN,
            len: 0,
        }
    }
}
