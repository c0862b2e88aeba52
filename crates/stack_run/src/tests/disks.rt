use super::{ALL_WRITTEN, Blank, FIRST, Given, Patch, Row, UNCHANGED};

const SECOND: &[Blank] = &[Blank {
    name: "b.img",
    length: 512,
}];

const TWO_DISKS: &str = "disk a.img 512 1\nclient\nwrite 510 aabbccdd\n\
    disk b.img 512 1\nclient\nread 511 1\n";

const FIRST_OF_TWO: &str = "disk 1 a.img size 512 blocks 2\n\
    0 accept 1 0+1024@1/0 write bytes 510 4 aabbccdd\n\
    1 fetch 0 0\n\
    2 store 0 0\n\
    3 fetch 0 1\n\
    4 store 0 1\n\
    5 collect 1 0\n\
    token 0 EFI_SUCCESS\n\
    medium 1 a.img kept 1024\n";

/// Scripts of several disks, of spares, and of disks that are cached, protected or of greater groups.
pub const DISKS: [Row; 12] = [
    Row {
        given: Given {
            script: "",
            ..FIRST
        },
        status: 0,
        written: "",
        left: UNCHANGED,
    },
    Row {
        given: Given {
            script: TWO_DISKS,
            others: SECOND,
            ..FIRST
        },
        status: 0,
        written: "disk 1 a.img size 512 blocks 2\n\
            0 accept 1 0+1024@1/0 write bytes 510 4 aabbccdd\n\
            1 fetch 0 0\n\
            2 store 0 0\n\
            3 fetch 0 1\n\
            4 store 0 1\n\
            5 collect 1 0\n\
            token 0 EFI_SUCCESS\n\
            medium 1 a.img kept 1024\n\
            disk 2 b.img size 512 blocks 1\n\
            0 accept 1 0+512@1/0 read bytes 511 1\n\
            1 get 0 0 1\n\
            2 collect 1 0\n\
            token 0 EFI_SUCCESS 00\n\
            medium 1 b.img kept 512\n",
        left: ALL_WRITTEN,
    },
    // The image of the second disk is missing, fails in taking, or is too short.
    Row {
        given: Given {
            script: TWO_DISKS,
            ..FIRST
        },
        status: 3,
        written: "image b.img\n",
        left: UNCHANGED,
    },
    Row {
        given: Given {
            script: TWO_DISKS,
            others: SECOND,
            images_fail: &[1],
            ..FIRST
        },
        status: 3,
        written: "image b.img\n",
        left: UNCHANGED,
    },
    Row {
        given: Given {
            script: TWO_DISKS,
            others: &[Blank {
                name: "b.img",
                length: 511,
            }],
            ..FIRST
        },
        status: 3,
        written: "image b.img\n",
        left: UNCHANGED,
    },
    // The image of the first disk, or of the second, cannot be put back.
    Row {
        given: Given {
            script: TWO_DISKS,
            others: SECOND,
            images_fail: &[2],
            ..FIRST
        },
        status: 3,
        written: "image a.img\n",
        left: None,
    },
    Row {
        given: Given {
            script: TWO_DISKS,
            others: SECOND,
            images_fail: &[3],
            ..FIRST
        },
        status: 3,
        written: "image b.img\n",
        left: ALL_WRITTEN,
    },
    // The sink fails in the second report.
    Row {
        given: Given {
            script: TWO_DISKS,
            others: SECOND,
            sink_fails: &[2],
            ..FIRST
        },
        status: 5,
        written: FIRST_OF_TWO,
        left: ALL_WRITTEN,
    },
    Row {
        given: Given {
            script: "disk a.img 512 1 protected\nspare b.img\nclient\nwrite 0 11\n",
            others: SECOND,
            ..FIRST
        },
        status: 0,
        written: "disk 1 a.img size 512 blocks 2\n\
            0 refuse 1 0+1024@1/0 write bytes 0 1 1 EFI_WRITE_PROTECTED\n\
            medium 1 a.img kept 1024\n\
            medium 2 b.img kept 512\n",
        left: UNCHANGED,
    },
    // Nothing was flushed.
    Row {
        given: Given {
            script: "disk a.img 512 1 cached\nclient\nwrite 0 11\n",
            ..FIRST
        },
        status: 0,
        written: "disk 1 a.img size 512 blocks 2\n\
            0 accept 1 0+1024@1/0 write bytes 0 1 11\n\
            1 fetch 0 0\n\
            2 store 0 0\n\
            3 collect 1 0\n\
            token 0 EFI_SUCCESS\n\
            medium 1 a.img kept 1024\n",
        left: UNCHANGED,
    },
    Row {
        given: Given {
            script: "disk a.img 512 1 physical 8\nclient\nwrite 4095 5a\n",
            image: Some(4096),
            ..FIRST
        },
        status: 0,
        written: "disk 1 a.img size 512 blocks 8 physical 8\n\
            0 accept 1 0+4096@1/0 write bytes 4095 1 5a\n\
            1 fetch 0 0\n\
            2 store 0 0\n\
            3 collect 1 0\n\
            token 0 EFI_SUCCESS\n\
            medium 1 a.img kept 4096\n",
        left: Some(Patch {
            at: 4095,
            bytes: &[0x5a],
        }),
    },
    // Twelve blocks are no whole groups of eight.
    Row {
        given: Given {
            script: "disk a.img 512 1 physical 8\nclient\nwrite 4095 5a\n",
            image: Some(6144),
            ..FIRST
        },
        status: 3,
        written: "image a.img\n",
        left: UNCHANGED,
    },
];
