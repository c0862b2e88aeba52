use super::{ALL_WRITTEN, FIRST, Given, Row, UNCHANGED};

/// Runs that end without their report.
pub const REFUSALS: [Row; 16] = [
    Row {
        given: Given {
            words: &[],
            ..FIRST
        },
        status: 1,
        written: "words\n",
        left: UNCHANGED,
    },
    Row {
        given: Given {
            words: &["plain", "plain"],
            ..FIRST
        },
        status: 1,
        written: "words\n",
        left: UNCHANGED,
    },
    Row {
        given: Given {
            words: &["probe"],
            ..FIRST
        },
        status: 1,
        written: "words\n",
        left: UNCHANGED,
    },
    Row {
        given: Given {
            words: &["-h"],
            ..FIRST
        },
        status: 1,
        written: "words\n",
        left: UNCHANGED,
    },
    Row {
        given: Given {
            script: "disk a.img 512 1\nclient part 1\nwrite 0 aa\n",
            ..FIRST
        },
        status: 2,
        written: "script 2 part\n",
        left: UNCHANGED,
    },
    Row {
        given: Given {
            script: "disk a.img 512 1\nfrob\n",
            ..FIRST
        },
        status: 2,
        written: "script 2 form\n",
        left: UNCHANGED,
    },
    Row {
        given: Given {
            script: "disk b.img 512 1\nclient\nwrite 510 aabbccdd\n",
            ..FIRST
        },
        status: 3,
        written: "image b.img\n",
        left: UNCHANGED,
    },
    Row {
        given: Given {
            image: None,
            ..FIRST
        },
        status: 3,
        written: "image a.img\n",
        left: None,
    },
    Row {
        given: Given {
            image: Some(511),
            ..FIRST
        },
        status: 3,
        written: "image a.img\n",
        left: UNCHANGED,
    },
    // The image could not be taken.
    Row {
        given: Given {
            images_fail: &[0],
            ..FIRST
        },
        status: 3,
        written: "image a.img\n",
        left: UNCHANGED,
    },
    // It could not be put back.
    Row {
        given: Given {
            images_fail: &[1],
            ..FIRST
        },
        status: 3,
        written: "image a.img\n",
        left: None,
    },
    // The source failed before its first byte, and at its end.
    Row {
        given: Given {
            source_fails: &[0],
            ..FIRST
        },
        status: 4,
        written: "source\n",
        left: UNCHANGED,
    },
    Row {
        given: Given {
            source_fails: &[1],
            ..FIRST
        },
        status: 4,
        written: "source\n",
        left: UNCHANGED,
    },
    // A faulty script is read to its end all the same.
    Row {
        given: Given {
            script: "frob\n",
            source_fails: &[1],
            ..FIRST
        },
        status: 4,
        written: "source\n",
        left: UNCHANGED,
    },
    Row {
        given: Given {
            script: "disk a.img 512 1\nclient\nread 0 1\n*",
            star: "#23456789012345678901234567890123456789012345678901234567890123\n",
            times: 65536,
            ..FIRST
        },
        status: 2,
        written: "script 0 size\n",
        left: UNCHANGED,
    },
    // The image is put back before the report is written.
    Row {
        given: Given {
            sink_fails: &[0],
            ..FIRST
        },
        status: 5,
        written: "",
        left: ALL_WRITTEN,
    },
];
