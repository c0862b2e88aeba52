use super::words_of;
use crate::words::{Row, row_of};
use std::alloc::{AllocError, Global};
use std::test::Fail;

// Words, and the row that they are in with its numbers and its file; it is empty where they are in none.
struct Told {
    words: &'static [&'static str],
    row: &'static str,
}

const TOLD: [Told; 36] = [
    Told {
        words: &[],
        row: "",
    },
    Told {
        words: &["plain"],
        row: "plain",
    },
    Told {
        words: &["Plain"],
        row: "",
    },
    Told {
        words: &["plain", "plain"],
        row: "",
    },
    Told {
        words: &["-h"],
        row: "",
    },
    Told {
        words: &["go"],
        row: "",
    },
    Told {
        words: &["go", "now"],
        row: "",
    },
    Told {
        words: &["probe"],
        row: "",
    },
    Told {
        words: &["probe", "a.img"],
        row: "",
    },
    Told {
        words: &["probe", "a.img", "512"],
        row: "probe a.img 512",
    },
    Told {
        words: &["probe", "a.img", "0512"],
        row: "probe a.img 512",
    },
    Told {
        words: &["probe", "a.img", "4096"],
        row: "probe a.img 4096",
    },
    Told {
        words: &["probe", "a.img", "500"],
        row: "",
    },
    Told {
        words: &["probe", "a.img", "8192"],
        row: "",
    },
    Told {
        words: &["probe", "a.img", "512 "],
        row: "",
    },
    Told {
        words: &["probe", "-a.img", "512"],
        row: "",
    },
    Told {
        words: &["probe", "", "512"],
        row: "",
    },
    Told {
        words: &["probe", "a b", "512"],
        row: "",
    },
    Told {
        words: &["probe", "a.img", "512", "1"],
        row: "",
    },
    Told {
        words: &["paths", "!~", "1024"],
        row: "paths !~ 1024",
    },
    Told {
        words: &["paths", "a.img", "0"],
        row: "",
    },
    Told {
        words: &["gen", "0", "1", "2"],
        row: "gen 0 1 2",
    },
    Told {
        words: &["gen", "00", "01", "02"],
        row: "gen 0 1 2",
    },
    Told {
        words: &["gen", "18446744073709551615", "64", "1562"],
        row: "gen 18446744073709551615 64 1562",
    },
    Told {
        words: &["gen", "18446744073709551616", "1", "1"],
        row: "",
    },
    Told {
        words: &["gen", "00000000000000000001", "1", "1"],
        row: "gen 1 1 1",
    },
    Told {
        words: &["gen", "000000000000000000001", "1", "1"],
        row: "",
    },
    Told {
        words: &["gen", "7", "1", "100000"],
        row: "gen 7 1 100000",
    },
    Told {
        words: &["gen", "7", "64", "1563"],
        row: "",
    },
    Told {
        words: &["gen", "7", "0", "1"],
        row: "",
    },
    Told {
        words: &["gen", "7", "65", "1"],
        row: "",
    },
    Told {
        words: &["gen", "7", "1", "0"],
        row: "",
    },
    Told {
        words: &["gen", "7", "2", "18446744073709551615"],
        row: "",
    },
    Told {
        words: &["gen", "+7", "1", "1"],
        row: "",
    },
    Told {
        words: &["gen", "7", "1"],
        row: "",
    },
    Told {
        words: &["gen", "7", "1", "1", "1"],
        row: "",
    },
];

// The words of a row, as short as they can be.
fn row_text(alloc: Global, row: &Option<Row>) -> Result<String, AllocError> {
    match row {
        None => Ok(String::new(alloc)),
        Some(Row::Plain) => String::from_str(alloc, "plain"),
        Some(Row::Probe { file, size }) => {
            let file = file.as_str();
            format!(in alloc; "probe {file} {size}")
        }
        Some(Row::Paths { file, size }) => {
            let file = file.as_str();
            format!(in alloc; "paths {file} {size}")
        }
        Some(
            Row::Generated {
                number,
                clients,
                lines,
            },
        ) => format!(in alloc; "gen {number} {clients} {lines}"),
    }
}

#[test]
fn finds_rows(rt: HostRuntime) -> Result<(), Fail> {
    let alloc = rt.alloc();
    for told in &TOLD {
        let words = words_of(alloc, told.words)?;
        let row = row_of(alloc, words.as_slice())?;
        let text = row_text(alloc, &row)?;
        assert_eq!(rt; text.as_str(), told.row);
    }
    Ok(())
}

#[test]
fn takes_files_of_255_bytes(rt: HostRuntime) -> Result<(), Fail> {
    let alloc = rt.alloc();
    for (length, found) in [(255, true), (256, false)] {
        let file = "x".repeat(alloc, length)?;
        let words = words_of(alloc, &["probe", file.as_str(), "512"])?;
        assert_eq!(rt; row_of(alloc, words.as_slice())?.is_some(), found);
    }
    Ok(())
}
