//! The node file of `ua serve --live`.

ghost use Rattle.std.specs.Prelude.{◌≡◌, ◌++◌, ◌∷◌, [], OnOk, OnErr, map};
ghost use Rattle.ua_nodes.specs.Sound.{AreNodesSound, IsSoundNode};
ghost use Rattle.ua_nodes.specs.Table.{variable_of};
ghost use Rattle.ua_server.specs.State.{with_nodes};
ghost use Rattle.ua_node_files.specs.Changed.{entry_of, with_all_changed, with_changed};
ghost use Rattle.ua_serving.specs.Live.{FollowsFile, TakesSomeNodes};

use std::alloc::AllocError;
use std::rt::Files;
use std::time::{Clock, Duration, SystemTime};
use std::{fs, io};
use ua_builtin::DateTime;
use ua_channel::Moments;
use ua_node_files::changed_nodes;
use ua_nodes::{LoadFault, Node, Reading, a_node_is_sound_where_it_passes};
use ua_report::{Fault, Stop, blame_line, cannot_read, read_lines};
use ua_server::Services;
use ua_tcp::ClockMoments;

/// The time from one look at the file to the next, in milliseconds.
const BETWEEN_LOOKS: u64 = 100;

/// A file is read again where one of these differs.
#[derive(Clone, Copy, PartialEq, Eq)]
struct Stamp {
    /// When it was modified, where the system tells.
    modified: Option<SystemTime>,
    /// Its length in bytes.
    len: u64,
}

/// What the last look at the file found.
#[derive(Clone, Copy)]
enum Seen {
    /// A file that is to be read, whatever its stamp is.
    Unread,
    /// A file that was read.
    Read(Stamp),
    /// No file.
    Gone,
}

/// A node file that is followed while its nodes are served.
#[derive(Drop)]
pub struct LiveFile<'f, 'a, F> {
    /// The files among which it is, and the clock by which it is looked at.
    files: &'f F,
    /// The name of the file.
    file: &'a str,
    /// Whether it has decimals and times as people write them.
    plain: bool,
    /// The text of the last reading that loaded.
    text: String,
    seen: Seen,
    /// When it was last looked at.
    looked: Option<Duration>,
}

impl<'f, 'a, F> LiveFile<'f, 'a, F> {
    /// The file of this name, of which this text was loaded.
    pub fn new(files: &'f F, file: &'a str, plain: bool, text: String) -> LiveFile<'f, 'a, F> {
        LiveFile {
            files,
            file,
            plain,
            text,
            seen: Seen::Unread,
            looked: None,
        }
    }
}

/// Looks at the file, where that is due: at most once in 100 ms. It is read again where its time or
/// its length differs from the last reading; what that changes is a definition over the lines of
/// the two readings and the nodes. Returns what is to be told, once: that the file does not load or
/// cannot be read.
pub(crate) fn follow<'f, 'a, F: Files + Clock + AllocGlobal>(
    live: &mut LiveFile<'f, 'a, F>,
    services: &mut Services,
) -> Option<Stop<'a>>
    ensures { FollowsFile live.old services.old live.new services.new }
{
    let now = live.files.monotonic().ok();
    if !is_due(live.looked, now) {
        return None;
    }
    live.looked = now;
    let seen = live.seen;
    match stamp_of(live.files, live.file) {
        Ok(stamp) if is_read(seen, stamp) => None,
        Ok(stamp) => {
            live.seen = Seen::Read(stamp);
            read_again(live, services)
        }
        Err(error) => {
            live.seen = Seen::Gone;
            match seen {
                Seen::Gone => None,
                Seen::Unread | Seen::Read(_) => Some(cannot_read(live.file, error)),
            }
        }
    }
}

/// Whether a look is due: 100 ms after the last one, or where the clock fails.
fn is_due(looked: Option<Duration>, now: Option<Duration>) -> bool {
    match (looked, now) {
        (Some(looked), Some(now)) => {
            now.saturating_sub(looked) >= Duration::from_millis(BETWEEN_LOOKS)
        }
        _ => true,
    }
}

/// Whether the file with this stamp was read.
fn is_read(seen: Seen, stamp: Stamp) -> bool {
    match seen {
        Seen::Read(last) => last == stamp,
        Seen::Unread | Seen::Gone => false,
    }
}

/// The time and length of a file.
fn stamp_of<F: Files>(files: &F, file: &str) -> io::Result<Stamp> {
    let metadata = fs::metadata(files, file)?;
    Ok(Stamp {
        modified: metadata.modified().ok(),
        len: metadata.len(),
    })
}

/// Reads the file again. Returns what is to be told: nothing where an allocation failed, since the
/// file is then read again at the next look.
fn read_again<'f, 'a, F: Files + Clock + AllocGlobal>(
    live: &mut LiveFile<'f, 'a, F>,
    services: &mut Services,
) -> Option<Stop<'a>>
    ensures { FollowsFile live.old services.old live.new services.new }
{
    match take_reading(live, services) {
        Ok(()) => None,
        Err(stop) => {
            if stop.is_starved() {
                live.seen = Seen::Unread;
                return None;
            }
            Some(stop)
        }
    }
}

/// Reads the file, and makes the changes of the reading.
fn take_reading<'f, 'a, F: Files + Clock + AllocGlobal>(
    live: &mut LiveFile<'f, 'a, F>,
    services: &mut Services,
) -> Result<(), Stop<'a>>
    ensures { FollowsFile live.old services.old live.new services.new }
{
    let (files, alloc) = (live.files, live.files.alloc());
    let text = read_lines(files, live.file, live.plain)?;
    let nodes = match changed_nodes(alloc, &live.text, &text) {
        Ok(nodes) => nodes,
        Err(LoadFault::Line { line, reason }) => {
            return Err(blame_line(alloc, &text, Fault::NodesLine { line, reason }));
        }
        Err(LoadFault::OutOfMemory) => return Err(Stop::Fault(Fault::NoMemory)),
    };
    let moment = DateTime {
        ticks: ClockMoments::new(files).next(),
    };
    put_all(services, nodes, moment)?;
    live.text = text;
    Ok(())
}

/// Gives the nodes that changed to the services, in order.
fn put_all(services: &mut Services, nodes: Vec<Node>, moment: DateTime) -> Result<(), AllocError>
    requires sound { AreNodesSound (map entry_of nodes.items) }
    ensures all { OnOk result
        (services.new ≡ with_nodes services.old (with_all_changed moment nodes.items services.old.nodes)) }
    ensures some { OnErr result (TakesSomeNodes moment nodes.items services.old services.new) }
{
    for node in nodes {
        put(services, node, moment)?;
    }
    Ok(())
}

/// Sets the value of a node, at this timestamp and without a status, where there is a node of its
/// NodeId; else adds it after the others. A value that the node cannot take is not set.
fn put(services: &mut Services, node: Node, moment: DateTime) -> Result<(), AllocError>
    requires sound { IsSoundNode node.id (variable_of node) }
    ensures put { OnOk result (services.new ≡ with_nodes services.old (with_changed moment node services.old.nodes)) }
    ensures kept { OnErr result (services.new ≡ services.old) }
{
    if services.nodes().get(&node.id).is_none() {
        return add(services, node);
    }
    let Node {
        id,
        name,
        kind: _,
        array: _,
        access: _,
        value,
        status: _,
        source_time: _,
        source_picoseconds: _,
    } = node;
    drop(name);
    let reading = Reading {
        value,
        status: None,
        source_time: moment,
        source_picoseconds: None,
    };
    let _set = services.set(&id, reading);
    Ok(())
}

/// Adds a node after the others.
fn add(services: &mut Services, node: Node) -> Result<(), AllocError>
    requires sound { IsSoundNode node.id (variable_of node) }
    ensures added { OnOk result (services.new ≡ with_nodes services.old (services.old.nodes ++ entry_of node ∷ [])) }
    ensures kept { OnErr result (services.new ≡ services.old) }
{
    a_node_is_sound_where_it_passes();
    match services.insert(node) {
        Ok(()) => Ok(()),
        Err(_) => Err(AllocError),
    }
}
