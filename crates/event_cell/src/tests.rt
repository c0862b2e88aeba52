use crate::{Event, make_event};
use efi_status::Status;
use std::test::Fail;
use std::thread;

/// An event, a twin that was made before the signal and one that was made after it.
#[test]
fn shows_its_status_at_each_end(rt: HostRuntime) -> Result<(), Fail> {
    let statuses = [
        Status::Success,
        Status::InvalidParameter,
        Status::BadBufferSize,
        Status::DeviceError,
        Status::WriteProtected,
        Status::OutOfResources,
        Status::NoMedia,
        Status::MediaChanged,
        Status::Aborted,
    ];
    for status in statuses {
        let (mut signaller, mut event) = make_event(rt.alloc())?;
        let mut earlier = event.twin()?;
        assert_eq!(rt; (event.check(), earlier.check()), (None, None));
        signaller.signal(status);
        let mut later = event.twin()?;
        assert_eq!(rt;
            (later.check(), later.check()),
            (Some(status), Some(status))
        );
        assert_eq!(rt;
            (event.check(), event.check()),
            (Some(status), Some(status))
        );
        assert_eq!(rt;
            (earlier.check(), earlier.check()),
            (Some(status), Some(status))
        );
        assert_eq!(rt; later.twin()?.check(), Some(status));
        signaller.agrees(&mut later);
    }
    Ok(())
}

/// What an event shows first, of so many looks.
fn first_status(mut event: Event) -> Option<Status> {
    for _ in 0..100_000_000 {
        let shown = event.check();
        if shown.is_some() {
            return shown;
        }
    }
    None
}

/// One thread signals while another looks.
#[test]
fn crosses_threads(rt: HostRuntime) -> Result<(), Fail> {
    let (mut signaller, event) = make_event(rt.alloc())?;
    let ((), shown) = thread::join(
        &rt,
        move || signaller.signal(Status::Aborted),
        move || first_status(event),
    );
    assert_eq!(rt; shown, Some(Status::Aborted));
    Ok(())
}
