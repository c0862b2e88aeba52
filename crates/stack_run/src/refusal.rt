use script_text::Reason;

/// Why a run ended with a line of its own in place of a report (own profile).
#[derive(Clone, Copy, Debug, PartialEq, Eq)]
pub enum Refusal {
    /// The words are in no row of the table.
    Words,
    /// The script is refused: its first faulty line with the first reason that holds.
    Script { line: u64, reason: Reason },
    /// The image could not be taken or put back.
    Image,
    /// The source failed.
    Source,
    /// Memory ran out.
    Memory,
}

/// Why the disks were not served (own profile).
#[derive(Clone, Copy, Debug, PartialEq, Eq)]
pub enum Unserved {
    /// The image at this place of the order of taking could not be taken or put back.
    Image { place: usize },
    /// Memory ran out before the images were back, or in putting them back.
    Memory,
    /// The sink failed in a report.
    Sink,
    /// Memory ran out in a report.
    Report,
}

/// Why an image was not taken or put back (own profile).
#[derive(Clone, Copy, Debug, PartialEq, Eq)]
pub enum NotRun {
    /// It failed, or it lacks blocks.
    Image,
    /// Memory ran out.
    Memory,
}

/// The first image that was not taken or put back (own profile).
#[derive(Clone, Copy, Debug, PartialEq, Eq)]
pub struct Stopped {
    /// Its place in the order of taking.
    pub place: usize,
    /// Why.
    pub fault: NotRun,
}
