//! The number that the word of an event holds for a status.
ghost use Rattle.std.specs.Prelude.{◌≡◌, ◌≤◌};
ghost use Rattle.efi_status.specs.declared.Status.{Status};
ghost use Rattle.efi_status.specs.StatusTable.{code_of};
ghost use Rattle.event_cell.specs.EventWord.{IsSignalled, word_of};

use efi_status::Status;

/// The bit that marks the code of an error.
const ERROR: u64 = 1 << 63;

/// 1 plus the number of the status.
pub(crate) fn word_of(status: Status) -> u64
    ensures { result ≡ word_of status }
{
    1 + status.code() % ERROR
}

/// The code of the status that was put into the word.
fn code_in(word: u64) -> u64
    requires { IsSignalled word }
    ensures { (status : Status) → word ≡ word_of status → result ≡ code_of status }
{
    if word == 1 {
        return 0;
    }
    ERROR + (word - 1)
}

/// The status that was put into the word.
pub(crate) fn status_in(word: u64) -> Status
    requires { IsSignalled word }
    ensures { word_of result ≡ word }
{
    Status::from_code(code_in(word)).unwrap()
}
