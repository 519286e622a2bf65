//! The device at each call: in memory, and over a file of the system.
use std::alloc::Global;
use std::fmt::Debug;
use std::fs;
use std::process::Abort;
use std::test::Fail;
use wm_station::*;

fn some(alloc: Global, number: u64) -> Result<Failing, Fail> {
    Ok(Failing::at(vec![in alloc; number]?))
}

/// A station of 1, 2, 3, 4 whose second write is torn and whose first sync fails.
fn failing_station(alloc: Global) -> Result<MemoryStation, Fail> {
    let start = [1, 2, 3, 4].to_vec(alloc)?;
    let writes = some(alloc, 1)?;
    let syncs = some(alloc, 0)?;
    let torn = vec![in alloc; 9, 9, 9]?;
    let faults = Faults {
        reads: Failing::never(alloc),
        writes,
        syncs,
        says: Failing::never(alloc),
        torn,
        say_limit: usize::MAX,
    };
    Ok(MemoryStation::new(alloc, start, faults)?)
}

/// A source of abc whose second take fails.
fn failing_source(alloc: Global) -> Result<MemorySource, Fail> {
    let bytes = b"abc".to_vec(alloc)?;
    Ok(MemorySource::new(bytes, some(alloc, 1)?))
}

/// Stops the test where an answer is another than the one that is wanted.
fn want<R: Abort, T: PartialEq + Debug + Drop>(rt: &R, found: T, wanted: T) {
    assert_eq!(rt; found, wanted);
}

/// A crash after so many calls, each write torn so, leaves this file.
fn leaves<R: Abort>(
    rt: &R,
    done: &Recording,
    calls: usize,
    tear: Tear,
    file: &[u8],
) -> Result<(), Fail> {
    let found = done.crash_image(calls, &[tear])?;
    want(rt, (calls, found.as_slice()), (calls, file));
    Ok(())
}

/// What crashes leave of [1, 2, 3, 4] after the calls of the test below.
fn crashes_leave<R: Abort>(rt: &R, done: &Recording) -> Result<(), Fail> {
    for (calls, tear, file) in [
        (0, Tear::Whole, [1, 2, 3, 4].as_slice()),
        (2, Tear::Whole, [1, 7, 9, 4].as_slice()),
        (2, Tear::Lost, [1, 2, 3, 4].as_slice()),
        (1, Tear::Front, [1, 7, 3, 4].as_slice()),
        (1, Tear::Back, [1, 2, 7, 4].as_slice()),
        (1, Tear::Filled(71), [1, 71, 71, 4].as_slice()),
        (4, Tear::Lost, [1, 7, 9, 4, 0, 0, 5, 6].as_slice()),
    ] {
        leaves(rt, done, calls, tear, file)?;
    }
    Ok(())
}

#[test]
fn a_failed_write_tears_and_a_failed_sync_keeps_nothing(rt: HostRuntime) -> Result<(), Fail> {
    let mut station = failing_station(rt.alloc())?;
    want(&rt, station.write_at(1, &[7, 7]), Ok(()));
    want(&rt, station.write_at(2, &[8]), Err(DiskFailed::Failed));
    want(&rt, station.sync(), Err(DiskFailed::Failed));
    want(&rt, station.write_at(6, &[5, 6]), Ok(()));
    want(&rt, station.sync(), Ok(()));
    want(&rt, station.len(), Ok(8));
    let done = station.recording();
    want(&rt, done.image(), [1, 7, 9, 4, 0, 0, 5, 6].as_slice());
    crashes_leave(&rt, done)
}

#[test]
fn a_source_gives_its_bytes_in_pieces(rt: HostRuntime) -> Result<(), Fail> {
    let alloc = rt.alloc();
    let mut source = failing_source(alloc)?;
    let mut into = [0; 2];
    want(&rt, source.take(&mut into), Ok(2));
    want(&rt, into, *b"ab");
    want(&rt, source.take(&mut into), Err(SourceFailed));
    want(&rt, source.take(&mut into), Ok(1));
    want(&rt, source.take(&mut into), Ok(0));
    let mut quiet = QuietSource::new(b"q".to_vec(alloc)?);
    want(&rt, quiet.take(&mut into), Ok(1));
    let mut stream = StreamSource::new(b"xyz".as_slice());
    want(&rt, stream.take(&mut into), Ok(2));
    want(&rt, into, *b"xy");
    Ok(())
}

#[test]
fn a_file_of_the_system_is_written_and_read(rt: HostRuntime) -> Result<(), Fail> {
    let alloc = rt.alloc();
    let mut station = FileStation::open(&rt, "wm_station_test.disk", Vec::new(alloc));
    want(&rt, station.write_at(2, b"wm"), Ok(()));
    want(&rt, station.sync(), Ok(()));
    want(&rt, station.len(), Ok(4));
    want(&rt, station.say(b"OK"), Ok(2));
    let mut beside = FileStation::open(&rt, "wm_station_test.disk", rt.stdout());
    want(&rt, beside.len(), Err(DiskFailed::Failed));
    drop(station);
    let mut again = FileStation::open(&rt, "wm_station_test.disk", rt.stdout());
    let mut into = [0; 3];
    want(&rt, again.read(1, &mut into), Ok(()));
    want(&rt, into, [0, b'w', b'm']);
    want(&rt, again.read(2, &mut into), Err(DiskFailed::Failed));
    Ok(())
}

#[test]
fn what_cannot_be_opened_fails(rt: HostRuntime) -> Result<(), Fail> {
    let mut none = FileStation::open(&rt, "no_such_folder/disk", rt.stdout());
    want(&rt, none.len(), Err(DiskFailed::Failed));
    let mut absent = FileStation::open_existing(&rt, "wm_station_test.absent", rt.stdout());
    want(&rt, absent.len(), Ok(0));
    want(&rt, absent.sync(), Ok(()));
    want(&rt, absent.write_at(0, b"wm"), Err(DiskFailed::Failed));
    want(&rt, fs::exists(&rt, "wm_station_test.absent")?, false);
    Ok(())
}
