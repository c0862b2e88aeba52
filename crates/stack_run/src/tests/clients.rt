use super::{Blank, FIRST, Given, Patch, Row, UNCHANGED};

const SPARE: &[Blank] = &[Blank {
    name: "b.img",
    length: 512,
}];

/// Scripts of several clients, and of each kind of line.
pub const CLIENTS: [Row; 10] = [
    // Nothing was flushed.
    Row {
        given: Given {
            script: "disk a.img 512 1 cached\nclient\nwrite 0 11\nwait\neject\n",
            image: Some(512),
            ..FIRST
        },
        status: 0,
        written: "disk 1 a.img size 512 blocks 1\n\
            0 accept 1 0+512@1/0 write bytes 0 1 11\n\
            1 fetch 0 0\n\
            2 store 0 0\n\
            3 collect 1 0\n\
            4 eject 1\n\
            token 0 EFI_SUCCESS\n\
            medium 1 a.img kept 512\n",
        left: UNCHANGED,
    },
    Row {
        given: Given {
            script: "disk a.img 512 1 cached\nclient\nwrite 0 11\nwait\nflush\nwait\neject\n",
            image: Some(512),
            ..FIRST
        },
        status: 0,
        written: "disk 1 a.img size 512 blocks 1\n\
            0 accept 1 0+512@1/0 write bytes 0 1 11\n\
            1 fetch 0 0\n\
            2 store 0 0\n\
            3 collect 1 0\n\
            4 accept 1 0+512@1/0 flush\n\
            5 sync 1\n\
            6 collect 1 1\n\
            7 eject 1\n\
            token 0 EFI_SUCCESS\n\
            token 1 EFI_SUCCESS\n\
            medium 1 a.img kept 512\n",
        left: Some(Patch {
            at: 0,
            bytes: &[0x11],
        }),
    },
    Row {
        given: Given {
            script: "disk a.img 512 1\nspare b.img\n\
                client\nread 0 512\nwait\nread 0 512\nclient\neject\ninsert\n",
            others: SPARE,
            ..FIRST
        },
        status: 0,
        written: "disk 1 a.img size 512 blocks 2\n\
            0 accept 1 0+1024@1/0 read bytes 0 512\n\
            1 eject 2\n\
            2 collect 1 0\n\
            3 insert 2 2\n\
            4 refuse 1 0+1024@1/0 read bytes 0 512 1 EFI_MEDIA_CHANGED\n\
            token 0 EFI_NO_MEDIA\n\
            medium 1 a.img kept 1024\n\
            medium 2 b.img kept 512\n",
        left: UNCHANGED,
    },
    Row {
        given: Given {
            script: "disk a.img 512 1\nclient\nwrite 0 11\nclient\nread 1 1\nclient\nprotect on\n",
            ..FIRST
        },
        status: 0,
        written: "disk 1 a.img size 512 blocks 2\n\
            0 accept 1 0+1024@1/0 write bytes 0 1 11\n\
            1 accept 2 0+1024@1/0 read bytes 1 1\n\
            2 protect 3 on\n\
            3 get 1 0 1\n\
            4 collect 1 0\n\
            5 collect 2 1\n\
            token 0 EFI_WRITE_PROTECTED\n\
            token 1 EFI_SUCCESS 00\n\
            medium 1 a.img kept 1024\n",
        left: UNCHANGED,
    },
    Row {
        given: Given {
            script: "disk a.img 512 1\nclient\nrblocks 0 700\nrblocks 2 512\nrblocks 1 512\n",
            star: "00",
            times: 512,
            ..FIRST
        },
        status: 0,
        written: "disk 1 a.img size 512 blocks 2\n\
            0 refuse 1 0+1024@1/0 read blocks 0 700 1 EFI_BAD_BUFFER_SIZE\n\
            1 refuse 1 0+1024@1/0 read blocks 2 512 1 EFI_INVALID_PARAMETER\n\
            2 accept 1 0+1024@1/0 read blocks 1 512\n\
            3 get 0 1 1\n\
            4 collect 1 0\n\
            token 0 EFI_SUCCESS *\n\
            medium 1 a.img kept 1024\n",
        left: UNCHANGED,
    },
    Row {
        given: Given {
            script: "disk a.img 512 1\nclient\nwblocks 1 *\n",
            star: "5a",
            times: 512,
            ..FIRST
        },
        status: 0,
        written: "disk 1 a.img size 512 blocks 2\n\
            0 accept 1 0+1024@1/0 write blocks 1 512 *\n\
            1 put 0 1 1\n\
            2 collect 1 0\n\
            token 0 EFI_SUCCESS\n\
            medium 1 a.img kept 1024\n",
        left: Some(Patch {
            at: 512,
            bytes: &[0x5a; 512],
        }),
    },
    Row {
        given: Given {
            script: "disk a.img 512 1\nclient\nfill 0 1024 ff\nwait\nerase 1 512\n",
            star: "ff",
            times: 1024,
            ..FIRST
        },
        status: 0,
        written: "disk 1 a.img size 512 blocks 2\n\
            0 accept 1 0+1024@1/0 write bytes 0 1024 *\n\
            1 put 0 0 2\n\
            2 collect 1 0\n\
            3 accept 1 0+1024@1/0 erase blocks 1 512\n\
            4 wipe 1 1 1\n\
            5 collect 1 1\n\
            token 0 EFI_SUCCESS\n\
            token 1 EFI_SUCCESS\n\
            medium 1 a.img kept 1024\n",
        left: Some(Patch {
            at: 0,
            bytes: &[0xff; 512],
        }),
    },
    // Another client ends the request before its first command.
    Row {
        given: Given {
            script: "disk a.img 512 1\nclient\nwrite 0 11\nclient\ncancel\n",
            ..FIRST
        },
        status: 0,
        written: "disk 1 a.img size 512 blocks 2\n\
            0 accept 1 0+1024@1/0 write bytes 0 1 11\n\
            1 cancel 2 0+1024@1/0\n\
            2 collect 1 0\n\
            token 0 EFI_ABORTED\n\
            medium 1 a.img kept 1024\n",
        left: UNCHANGED,
    },
    Row {
        given: Given {
            script: "disk a.img 512 1\nclient\nwrite 0 11\nclient\nreset\n",
            ..FIRST
        },
        status: 0,
        written: "disk 1 a.img size 512 blocks 2\n\
            0 accept 1 0+1024@1/0 write bytes 0 1 11\n\
            1 reset 2\n\
            2 collect 1 0\n\
            token 0 EFI_ABORTED\n\
            medium 1 a.img kept 1024\n",
        left: UNCHANGED,
    },
    // A medium is in, then none is, and no spare is left.
    Row {
        given: Given {
            script: "disk a.img 512 1\nclient\ninsert\neject\neject\ninsert\n",
            ..FIRST
        },
        status: 0,
        written: "disk 1 a.img size 512 blocks 2\n\
            0 eject 1\n\
            medium 1 a.img kept 1024\n",
        left: UNCHANGED,
    },
];
