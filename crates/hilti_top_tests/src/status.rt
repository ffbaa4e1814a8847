//! How a command says how it ended.
use hilti_base::Place;
use hilti_top::Status;
use std::test::Fail;

#[test]
fn says_how_it_ended(rt: HostRuntime) -> Result<(), Fail> {
    let place = Place {
        file: 2,
        line: 30,
        column: 4,
    };
    let rows: [(Status, u8, &[u8]); 9] = [
        (Status::Done, 0, b""),
        (
            Status::Usage,
            1,
            b"hilti: usage: check, one, run or gen; see the manual\n",
        ),
        (Status::ReadFault, 2, b"hilti: cannot read\n"),
        (
            Status::BadModule { place, code: 21 },
            3,
            b"hilti: module 2:30:4: code 21\n",
        ),
        (
            Status::BadCapture { at: 24, code: 4 },
            4,
            b"hilti: capture at 24: code 4\n",
        ),
        (Status::CallLimit, 5, b"hilti: call limit reached\n"),
        (Status::WriteFault, 6, b"hilti: cannot write\n"),
        (Status::NoMemory, 7, b"hilti: out of memory\n"),
        (
            Status::CaptureCut { at: 42 },
            8,
            b"hilti: capture cut at 42\n",
        ),
    ];
    for (status, number, text) in rows {
        assert_eq!(rt; status.number(), number);
        assert_eq!(rt; status.text(rt.alloc())?.bytes(), text);
    }
    Ok(())
}
