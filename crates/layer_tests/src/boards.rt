//! A writer and two readers in threads of their own, over a value that only counts.
ghost use Rattle.std.specs.Prelude.{◌≡◌, ◌+◌, ◌^◌, ◌<◌, ◌≤◌, [], length, replicate, Some, All, IfSome};
ghost use Rattle.atomic_table.specs.Seated.{TableId};

use board::{Closed, Copies, Dated, NoMemory, Note, Reader, Writer, close, start};
use std::alloc::Global;
use std::marker::{Brand, PhantomData};
use std::sync::atomic::{AtomicBool, Ordering};
use std::sync::{Mutex, Wait};
use std::test::Fail;
use std::thread;
use std::thread::{Threads, join};

const VERSIONS: u32 = 1000;

/// A version whose log has this many zeros.
#[derive(Drop)]
struct Count {
    number: u32,
}

impl Dated for Count {
    type Item = u8;

    type Origin = ();

    ghost log = { λ c. replicate c.number 0 };

    ghost origin = { λ _. tt };

    fn number(&self) -> u32 {
        self.number
    }

    fn share(&self) -> Result<Count, NoMemory> {
        Ok(Count {
            number: self.number,
        })
    }
}

/// Which board it is. The test picks it.
trait Naming {
    ghost board: { TableId };
}

impl Naming for Brand {
    ghost board = { record { words = 0; slots = 0; views_name = 0; atom = 0; block = 0; offset = 0; slot_names = [] } };
}

/// A note of that board, with the number that it is of.
#[derive(Drop)]
struct Letter<B: Naming> {
    note: Note<Count>,
    number: u32,
    of: PhantomData<B>,
    ghost here: { note.board ≡ B.board },
}

type Inbox<B> = Mutex<Option<Letter<B>>>;

/// Publishes every version, and sends each reader a note of every tenth.
fn write_all<B: Naming, R: Wait>(
    rt: &R,
    alloc: Global,
    mut writer: Writer<Count>,
    first: &Inbox<B>,
    second: &Inbox<B>,
    over: &AtomicBool,
) -> (Writer<Count>, bool)
    requires { (writer.board ≡ B.board) × (writer.consoles ≡ 2) × (writer.last.number ≡ 0) × (writer.told ≡ 0) × (writer.origin ≡ Some tt) }
    ensures { (result.0.board ≡ B.board) × (result.0.consoles ≡ 2) }
{
    for done in 0..VERSIONS {
        let Ok(copies) = Copies::of(alloc, Count { number: done + 1 }, 2) else {
            over.store(true, Ordering::SeqCst);
            return (writer, false);
        };
        writer.publish(copies);
        if (done + 1) % 10 == 0 {
            *first.lock(rt) = Some(make_letter(&mut writer, done + 1));
            *second.lock(rt) = Some(make_letter(&mut writer, done + 1));
        }
    }
    over.store(true, Ordering::SeqCst);
    let all = writer.told() == u64::from(VERSIONS) && writer.last().number == VERSIONS;
    (writer, all)
}

fn make_letter<B: Naming>(writer: &mut Writer<Count>, number: u32) -> Letter<B>
    requires { writer.old.board ≡ B.board }
    ensures { writer.new ≡ writer.old }
{
    Letter {
        note: writer.note(),
        number,
        of: PhantomData,
    }
}

/// Learns a note that came, and answers the least number that the next look may find.
fn take_note<B: Naming, R: Wait>(
    rt: &R,
    reader: &mut Reader<Count>,
    inbox: &Inbox<B>,
    least: u32,
) -> u32
    requires { reader.old.board ≡ B.board }
    ensures { (reader.new.board ≡ reader.old.board) × (reader.new.founds ≡ reader.old.founds) }
{
    let letter = inbox.lock(rt).take();
    let Some(letter) = letter else {
        return least;
    };
    let Letter {
        note,
        number,
        of: _,
    } = letter;
    reader.learn(note);
    least.max(number)
}

fn look_once(reader: &mut Reader<Count>) -> u32
    requires { length reader.old.founds < 2 ^ 63 }
    ensures { (reader.new.board ≡ reader.old.board) × (length reader.new.founds ≡ length reader.old.founds + 1) }
{
    reader.look().number
}

/// Looks until the last version is seen or the writer is over, and says whether no number fell, nor below a note.
fn read_all<B: Naming, R: Wait>(
    rt: &R,
    mut reader: Reader<Count>,
    inbox: &Inbox<B>,
    over: &AtomicBool,
) -> (Reader<Count>, bool)
    requires { (reader.board ≡ B.board) × (reader.founds ≡ []) }
    ensures { result.0.board ≡ B.board }
{
    let mut least = reader.shown().number;
    for look in 0..u32::MAX {
        least = take_note(rt, &mut reader, inbox, least);
        let last_look = over.load(Ordering::SeqCst);
        let number = look_once(&mut reader);
        if number < least {
            return (reader, false);
        }
        least = number;
        if number == VERSIONS {
            let all = reader.looks() == u64::from(look) + 1;
            return (reader, all);
        }
        if last_look {
            return (reader, false);
        }
        thread::yield_now();
    }
    (reader, false)
}

/// The same for two readers at once.
fn read_both<B: Naming + Send + Sync, R: Threads + Wait + Sync>(
    rt: &R,
    one: Reader<Count>,
    two: Reader<Count>,
    first: &Inbox<B>,
    second: &Inbox<B>,
    over: &AtomicBool,
) -> ((Reader<Count>, bool), (Reader<Count>, bool))
    requires { (one.board ≡ B.board) × (one.founds ≡ []) × (two.board ≡ B.board) × (two.founds ≡ []) }
    ensures { (result.0.0.board ≡ B.board) × (result.1.0.board ≡ B.board) }
{
    join(
        rt,
        || -> (Reader<Count>, bool)
            requires { (one.board ≡ B.board) × (one.founds ≡ []) }
            ensures { result.0.board ≡ B.board }
        { read_all(rt, one, first, over) },
        || -> (Reader<Count>, bool)
            requires { (two.board ≡ B.board) × (two.founds ≡ []) }
            ensures { result.0.board ≡ B.board }
        { read_all(rt, two, second, over) },
    )
}

fn take_two<B: Naming>(mut readers: Vec<Reader<Count>>) -> Option<(Reader<Count>, Reader<Count>)>
    requires { All (λ r. (r.board ≡ B.board) × (r.founds ≡ [])) readers.items }
    ensures { IfSome result (λ r. (r.0.board ≡ B.board) × (r.0.founds ≡ []) × (r.1.board ≡ B.board) × (r.1.founds ≡ [])) }
{
    let one = readers.pop()?;
    let two = readers.pop()?;
    Some((one, two))
}

/// Runs the three at once, and closes the board.
fn run<B: Naming + Send + Sync, R: Threads + Wait + Sync>(
    rt: &R,
    alloc: Global,
    writer: Writer<Count>,
    readers: Vec<Reader<Count>>,
) -> Result<bool, NoMemory>
    requires writer { (writer.board ≡ B.board) × (writer.consoles ≡ 2) × (writer.last.number ≡ 0) × (writer.told ≡ 0) × (writer.origin ≡ Some tt) }
    requires readers { All (λ r. (r.board ≡ B.board) × (r.founds ≡ [])) readers.items }
{
    let first: Inbox<B> = Mutex::new(None);
    let second: Inbox<B> = Mutex::new(None);
    let over = AtomicBool::new(false);
    let Some((one, two)) = take_two::<B>(readers) else {
        return Ok(false);
    };
    let ((writer, written), ((one, whole), (two, sound))) = join(
        rt,
        || -> (Writer<Count>, bool)
            requires { (writer.board ≡ B.board) × (writer.consoles ≡ 2) × (writer.last.number ≡ 0) × (writer.told ≡ 0) × (writer.origin ≡ Some tt) }
            ensures { (result.0.board ≡ B.board) × (result.0.consoles ≡ 2) }
        { write_all(rt, alloc, writer, &first, &second, &over) },
        || -> ((Reader<Count>, bool), (Reader<Count>, bool))
            requires { (one.board ≡ B.board) × (one.founds ≡ []) × (two.board ≡ B.board) × (two.founds ≡ []) }
            ensures { (result.0.0.board ≡ B.board) × (result.1.0.board ≡ B.board) }
        { read_both(rt, one, two, &first, &second, &over) },
    );
    let mut readers = Vec::new(alloc);
    readers.push(one)?;
    readers.push(two)?;
    let Closed { last } = close(writer, readers);
    Ok(written && whole && sound && last.number == VERSIONS)
}

#[test]
fn readers_never_go_back(rt: HostRuntime) -> Result<(), Fail> {
    let Ok((writer, readers)) = start(rt.alloc(), Count { number: 0 }, 2) else {
        return Err("no memory".into());
    };
    assert!(rt; run::<Brand, _>(&rt, rt.alloc(), writer, readers)?);
    Ok(())
}

/// A look after a note has at least what was published when the note was made.
fn look_after_note<V: Dated + Send + Sync>(writer: &mut Writer<V>, reader: &mut Reader<V>) -> u32
    requires { (reader.old.board ≡ writer.old.board) × (length reader.old.founds < 2 ^ 63) }
    ensures told { length (V.log writer.old.last) ≤ result }
    ensures board { reader.new.board ≡ writer.new.board }
{
    reader.learn(writer.note());
    reader.look().number()
}

#[test]
fn a_note_is_found(rt: HostRuntime) -> Result<(), Fail> {
    let alloc = rt.alloc();
    let Ok((mut writer, mut readers)) = start(alloc, Count { number: 3 }, 1) else {
        return Err("no memory".into());
    };
    let Some(mut reader) = readers.pop() else {
        return Err("no reader".into());
    };
    let Ok(copies) = Copies::of(alloc, Count { number: 5 }, 1) else {
        return Err("no memory".into());
    };
    writer.publish(copies);
    assert!(rt; look_after_note(&mut writer, &mut reader) == 5);
    writer.meet(&mut reader);
    Ok(())
}
