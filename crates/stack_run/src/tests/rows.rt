use super::{ALL_WRITTEN, FIRST, Given, Patch, Row, UNCHANGED};
use medium::Planned;

const FIRST_REPORT: &str = "disk 1 a.img size 512 blocks 2\n\
    0 accept 1 0+1024@1/0 write bytes 510 4 aabbccdd\n\
    1 fetch 0 0\n\
    2 store 0 0\n\
    3 fetch 0 1\n\
    4 store 0 1\n\
    5 collect 1 0\n\
    6 accept 1 0+1024@1/0 read bytes 508 8\n\
    7 get 1 0 1\n\
    8 get 1 1 1\n\
    9 collect 1 1\n\
    token 0 EFI_SUCCESS\n\
    token 1 EFI_SUCCESS 0000aabbccdd0000\n\
    medium 1 a.img kept 1024\n";

/// Scripts that are run. A command fails in the last row alone.
pub const ROWS: [Row; 9] = [
    Row {
        given: FIRST,
        status: 0,
        written: FIRST_REPORT,
        left: ALL_WRITTEN,
    },
    // The line of the write lies in two pieces of 4,096 bytes.
    Row {
        given: Given {
            script: "#*\ndisk a.img 512 1\nclient\nwrite 510 aabbccdd\nwait\nread 508 8\n",
            star: "x",
            times: 4060,
            ..FIRST
        },
        status: 0,
        written: FIRST_REPORT,
        left: ALL_WRITTEN,
    },
    Row {
        given: Given {
            script: "disk a.img 512 1\nclient\nwrite 1023 5a\n",
            ..FIRST
        },
        status: 0,
        written: "disk 1 a.img size 512 blocks 2\n\
            0 accept 1 0+1024@1/0 write bytes 1023 1 5a\n\
            1 fetch 0 1\n\
            2 store 0 1\n\
            3 collect 1 0\n\
            token 0 EFI_SUCCESS\n\
            medium 1 a.img kept 1024\n",
        left: Some(Patch {
            at: 1023,
            bytes: &[0x5a],
        }),
    },
    Row {
        given: Given {
            script: "disk a.img 512 1\nclient\nwrite 1023 5a5a\n",
            ..FIRST
        },
        status: 0,
        written: "disk 1 a.img size 512 blocks 2\n\
            0 refuse 1 0+1024@1/0 write bytes 1023 2 1 EFI_INVALID_PARAMETER\n\
            medium 1 a.img kept 1024\n",
        left: UNCHANGED,
    },
    Row {
        given: Given {
            script: "disk a.img 512 1\nclient\nread 1024 0\n",
            ..FIRST
        },
        status: 0,
        written: "disk 1 a.img size 512 blocks 2\n\
            0 accept 1 0+1024@1/0 read bytes 1024 0\n\
            1 collect 1 0\n\
            token 0 EFI_SUCCESS -\n\
            medium 1 a.img kept 1024\n",
        left: UNCHANGED,
    },
    Row {
        given: Given {
            script: "disk a.img 512 1\nclient\nread 1025 0\n",
            ..FIRST
        },
        status: 0,
        written: "disk 1 a.img size 512 blocks 2\n\
            0 refuse 1 0+1024@1/0 read bytes 1025 0 1 EFI_INVALID_PARAMETER\n\
            medium 1 a.img kept 1024\n",
        left: UNCHANGED,
    },
    Row {
        given: Given {
            script: "disk a.img 512 1\nclient\nread 18446744073709551615 2\n",
            ..FIRST
        },
        status: 0,
        written: "disk 1 a.img size 512 blocks 2\n\
            0 refuse 1 0+1024@1/0 read bytes 18446744073709551615 2 1 EFI_INVALID_PARAMETER\n\
            medium 1 a.img kept 1024\n",
        left: UNCHANGED,
    },
    Row {
        given: Given {
            script: "disk a.img 512 1\nclient\nfill 512 1024 5A\n",
            image: Some(2048),
            star: "5a",
            times: 1024,
            ..FIRST
        },
        status: 0,
        written: "disk 1 a.img size 512 blocks 4\n\
            0 accept 1 0+2048@1/0 write bytes 512 1024 *\n\
            1 put 0 1 2\n\
            2 collect 1 0\n\
            token 0 EFI_SUCCESS\n\
            medium 1 a.img kept 2048\n",
        left: Some(Patch {
            at: 512,
            bytes: &[0x5a; 1024],
        }),
    },
    Row {
        given: Given {
            script: "disk a.img 512 1\nclient\nwrite 0 *\n",
            image: Some(2048),
            planned: &[Planned { call: 0, done: 1 }],
            star: "ff",
            times: 1536,
            ..FIRST
        },
        status: 0,
        written: "disk 1 a.img size 512 blocks 4\n\
            0 accept 1 0+2048@1/0 write bytes 0 1536 *\n\
            1 fault 0 put 0 3 1\n\
            2 collect 1 0\n\
            token 0 EFI_DEVICE_ERROR\n\
            medium 1 a.img kept 2048\n",
        left: Some(Patch {
            at: 0,
            bytes: &[0xff; 512],
        }),
    },
];

const HALF_WRITTEN: Option<Patch> = Some(Patch {
    at: 510,
    bytes: &[0xaa, 0xbb],
});

/// The first script, where each of its six commands fails in turn.
pub const FAULTS: [Row; 6] = [
    Row {
        given: Given {
            planned: &[Planned { call: 0, done: 0 }],
            ..FIRST
        },
        status: 0,
        written: "disk 1 a.img size 512 blocks 2\n\
            0 accept 1 0+1024@1/0 write bytes 510 4 aabbccdd\n\
            1 fault 0 fetch 0 1 0\n\
            2 collect 1 0\n\
            3 accept 1 0+1024@1/0 read bytes 508 8\n\
            4 get 1 0 1\n\
            5 get 1 1 1\n\
            6 collect 1 1\n\
            token 0 EFI_DEVICE_ERROR\n\
            token 1 EFI_SUCCESS 0000000000000000\n\
            medium 1 a.img kept 1024\n",
        left: UNCHANGED,
    },
    Row {
        given: Given {
            planned: &[Planned { call: 1, done: 0 }],
            ..FIRST
        },
        status: 0,
        written: "disk 1 a.img size 512 blocks 2\n\
            0 accept 1 0+1024@1/0 write bytes 510 4 aabbccdd\n\
            1 fetch 0 0\n\
            2 fault 0 store 0 1 0\n\
            3 collect 1 0\n\
            4 accept 1 0+1024@1/0 read bytes 508 8\n\
            5 get 1 0 1\n\
            6 get 1 1 1\n\
            7 collect 1 1\n\
            token 0 EFI_DEVICE_ERROR\n\
            token 1 EFI_SUCCESS 0000000000000000\n\
            medium 1 a.img kept 1024\n",
        left: UNCHANGED,
    },
    Row {
        given: Given {
            planned: &[Planned { call: 2, done: 0 }],
            ..FIRST
        },
        status: 0,
        written: "disk 1 a.img size 512 blocks 2\n\
            0 accept 1 0+1024@1/0 write bytes 510 4 aabbccdd\n\
            1 fetch 0 0\n\
            2 store 0 0\n\
            3 fault 0 fetch 1 1 0\n\
            4 collect 1 0\n\
            5 accept 1 0+1024@1/0 read bytes 508 8\n\
            6 get 1 0 1\n\
            7 get 1 1 1\n\
            8 collect 1 1\n\
            token 0 EFI_DEVICE_ERROR\n\
            token 1 EFI_SUCCESS 0000aabb00000000\n\
            medium 1 a.img kept 1024\n",
        left: HALF_WRITTEN,
    },
    Row {
        given: Given {
            planned: &[Planned { call: 3, done: 0 }],
            ..FIRST
        },
        status: 0,
        written: "disk 1 a.img size 512 blocks 2\n\
            0 accept 1 0+1024@1/0 write bytes 510 4 aabbccdd\n\
            1 fetch 0 0\n\
            2 store 0 0\n\
            3 fetch 0 1\n\
            4 fault 0 store 1 1 0\n\
            5 collect 1 0\n\
            6 accept 1 0+1024@1/0 read bytes 508 8\n\
            7 get 1 0 1\n\
            8 get 1 1 1\n\
            9 collect 1 1\n\
            token 0 EFI_DEVICE_ERROR\n\
            token 1 EFI_SUCCESS 0000aabb00000000\n\
            medium 1 a.img kept 1024\n",
        left: HALF_WRITTEN,
    },
    Row {
        given: Given {
            planned: &[Planned { call: 4, done: 0 }],
            ..FIRST
        },
        status: 0,
        written: "disk 1 a.img size 512 blocks 2\n\
            0 accept 1 0+1024@1/0 write bytes 510 4 aabbccdd\n\
            1 fetch 0 0\n\
            2 store 0 0\n\
            3 fetch 0 1\n\
            4 store 0 1\n\
            5 collect 1 0\n\
            6 accept 1 0+1024@1/0 read bytes 508 8\n\
            7 fault 1 get 0 1 0\n\
            8 collect 1 1\n\
            token 0 EFI_SUCCESS\n\
            token 1 EFI_DEVICE_ERROR\n\
            medium 1 a.img kept 1024\n",
        left: ALL_WRITTEN,
    },
    Row {
        given: Given {
            planned: &[Planned { call: 5, done: 0 }],
            ..FIRST
        },
        status: 0,
        written: "disk 1 a.img size 512 blocks 2\n\
            0 accept 1 0+1024@1/0 write bytes 510 4 aabbccdd\n\
            1 fetch 0 0\n\
            2 store 0 0\n\
            3 fetch 0 1\n\
            4 store 0 1\n\
            5 collect 1 0\n\
            6 accept 1 0+1024@1/0 read bytes 508 8\n\
            7 get 1 0 1\n\
            8 fault 1 get 1 1 0\n\
            9 collect 1 1\n\
            token 0 EFI_SUCCESS\n\
            token 1 EFI_DEVICE_ERROR\n\
            medium 1 a.img kept 1024\n",
        left: ALL_WRITTEN,
    },
];
