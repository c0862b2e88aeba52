use std::alloc::AllocError;

/// Why a line of a script is faulty: the first of these that holds (own profile).
#[derive(Clone, Copy, Debug, PartialEq, Eq)]
pub enum Reason {
    /// A byte is not allowed, the first word is unknown, the number of words is wrong, or a fixed word has no place there.
    Form,
    /// A word that must be a number is none, or its value is too large.
    Number,
    /// A word that must be bytes is no even number of hexadecimal digits, nor `-`.
    Hex,
    /// A spare or a client before any disk, a spare behind a client of its disk, or another line before a client of its disk.
    Order,
    /// An image's name is too long, or stands earlier in the script.
    Name,
    /// A last word `@K` that names no medium of the disk, or stands in a line of a client on a part.
    Medium,
    /// A size, a number of workers, disks, media or clients, the blocks of a group, or an amount of bytes is outside its limits.
    Limit,
    /// The script is too long, at line 0.
    Size,
    /// A partition that its disk does not have. It is found only once the disks were read.
    Part,
}

/// Why a script was refused (own profile).
#[derive(Clone, Copy, Debug, PartialEq, Eq)]
pub enum ScriptRefused {
    /// The first faulty line, numbered from 1, with the first reason that holds. Line 0 is the script as a whole.
    Fault { line: u64, reason: Reason },
    /// Memory ran out.
    Memory,
}

/// Why a line was refused.
#[derive(Clone, Copy, Drop)]
pub enum LineRefused {
    /// It is faulty for this reason.
    Faulty(Reason),
    /// Memory ran out.
    Memory,
}

impl From<AllocError> for LineRefused {
    ghost use Rattle.std.specs.Prelude.{◌≡◌};
    ghost use Rattle.script_text.specs.declared.language.refusal.LineRefused.TheVariants.{Memory};

    ghost from_gives = { λ _ refused. refused ≡ Memory };

    fn from(_error: AllocError) -> LineRefused {
        LineRefused::Memory
    }
}
