// Nights and changes as text.
use change::kinds::Change;
use std::alloc::Global;
use std::fmt::Display;
use std::test::Fail;
use text::changes::read_changes;
use text::reader::read_text;
use text::writer::write_text;

// texts of a night, and what is wrong with them
const WRONG: [(&[u8], &str); 12] = [
    (b"", "line 1: expected 'hours N' with N from 1 to 96\n"),
    (
        b"# nothing\n\n",
        "line 3: expected 'hours N' with N from 1 to 96\n",
    ),
    (
        b"hours 97\n5 : 0",
        "line 1: expected 'hours N' with N from 1 to 96\n",
    ),
    (
        b"hours 2 3\n1 : 96",
        "line 1: expected 'hours N' with N from 1 to 96\nline 2: hour 96 is not below 96\n",
    ),
    (
        b"hours 24\n120 : 24\n\n7 : 20-30",
        "line 2: hour 24 is not below 24\nline 4: hours 20-30 are not all below 24\n",
    ),
    (
        b"hours 24\n1000001 : 3",
        "line 2: units 1000001 are above 1000000\n",
    ),
    (
        b"hours 24\n99999999999999999999 : 3",
        "line 2: units 99999999999999999999 are above 1000000\n",
    ),
    (
        b"hours 24\nferry abc : 3\n : 4",
        "line 2: expected units before the colon, found 'abc'\nline 3: expected units before the colon\n",
    ),
    (
        b"hours 24\n5 :  # none\n6",
        "line 2: no hour\nline 3: expected one colon, between units and hours\n",
    ),
    (
        b"hours 24\n5 : 9-3 x 1-2-3 99999999999",
        "line 2: range 9-3 runs backward\nline 2: expected an hour as 5 or hours as 0-4, found 'x'\nline 2: expected an hour as 5 or hours as 0-4, found '1-2-3'\nline 2: hour 99999999999 is not below 24\n",
    ),
    (b"hours 24\n5 : 1\nbj\xf8rn 6 : 2", "line 3: not UTF-8\n"),
    (b"hours 24\n\xff", "line 2: not UTF-8\n"),
];

// texts of a night, and the same night as it is written
const READ: [(&[u8], &str); 5] = [
    (b"hours 1", "hours 1\n"),
    (
        b"# a\nhours\t24 # of a day\r\n\r\n120:20 21 22 23 0-4 # b\n",
        "hours 24\n120 : 0-4 20-23\n",
    ),
    (
        b"hours 8\nferry  Astrid 0120 : 0-7\n5 : 7 7 0 2 3 5",
        "hours 8\nferry Astrid 120 : 0-7\n5 : 0 2-3 5 7\n",
    ),
    (
        b"hours 96\n1000000 : 95\n0 : 0-95\n",
        "hours 96\n1000000 : 95\n0 : 0-95\n",
    ),
    (
        b"hours 4\nbuss Bj\xc3\xb8rn 7 : 1-2\n",
        "hours 4\nbuss Bjørn 7 : 1-2\n",
    ),
];

// texts of changes, and what is wrong with them
const NO_CHANGE: [(&[u8], &str); 4] = [
    (
        b"stays 3",
        "line 1: expected 'comes UNITS : HOURS', 'goes TASK' or 'more TASK UNITS'\n",
    ),
    (
        b"goes\ngoes 1 2\ngoes x",
        "line 1: expected 'comes UNITS : HOURS', 'goes TASK' or 'more TASK UNITS'\nline 2: expected 'comes UNITS : HOURS', 'goes TASK' or 'more TASK UNITS'\nline 3: expected 'comes UNITS : HOURS', 'goes TASK' or 'more TASK UNITS'\n",
    ),
    (b"comes 5 : 96", "line 1: hour 96 is not below 96\n"),
    (
        b"# one\ncomes : 1\nmore 2",
        "line 2: expected units before the colon, found 'comes'\nline 3: expected 'comes UNITS : HOURS', 'goes TASK' or 'more TASK UNITS'\n",
    ),
];

// What a reader says of a text that it refuses; a failure where it takes the text.
fn told<T: Drop, E: Display + Drop>(
    heap: Global,
    read: Result<T, E>,
    said: &str,
) -> Result<String, Fail> {
    match read {
        Ok(_) => Err(Fail::new(said)),
        Err(e) => Ok(e.to_string(heap)?),
    }
}

#[test]
fn mistakes(rt: HostRuntime) -> Result<(), Fail> {
    for (text, said) in WRONG {
        assert_eq!(rt;
            told(rt.alloc(), read_text(rt.alloc(), text), said)?.as_str(),
            said
        );
    }
    for (text, said) in NO_CHANGE {
        assert_eq!(rt;
            told(rt.alloc(), read_changes(rt.alloc(), text), said)?.as_str(),
            said
        );
    }
    Ok(())
}

// A text read and written.
fn again(heap: Global, text: &[u8]) -> Result<String, Fail> {
    let read = read_text(heap, text).map_err(|_| Fail::new("not read"))?;
    write_text(heap, &read.night, read.names.as_slice()).map_err(|_| Fail::new("not written"))
}

#[test]
fn round(rt: HostRuntime) -> Result<(), Fail> {
    for (text, said) in READ {
        let once = again(rt.alloc(), text)?;
        assert_eq!(rt; once.as_str(), said);
        assert_eq!(rt; again(rt.alloc(), once.as_bytes())?.as_str(), said);
    }
    Ok(())
}

#[test]
fn changes(rt: HostRuntime) -> Result<(), Fail> {
    let text = b"# now\ncomes bus 9 120 : 20 21-22\n\ngoes 3 # the old one\nmore 2 15";
    match read_changes(rt.alloc(), text) {
        Ok(all) => match all.as_slice() {
            [
                Change::Comes(task),
                Change::Goes(gone),
                Change::More(more, units),
            ] => {
                assert!(rt;
                    task.units == 120 && task.hours.count() == 3 && task.hours.contains(22)
                );
                assert!(rt; *gone == 3 && *more == 2 && *units == 15);
                Ok(())
            }
            _ => Err(Fail::new("other changes")),
        },
        Err(_) => Err(Fail::new("not read")),
    }
}
