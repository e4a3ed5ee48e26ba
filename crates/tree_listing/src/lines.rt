ghost use Rattle.std.specs.Prelude.{◌≡◌, ◌++◌, [], codes, get_or, OnOk, OnErr, IfOk};
ghost use Rattle.session_script.specs.Escapes.{escaped};
ghost use Rattle.tape_types.specs.Counts.{HasCause};
ghost use Rattle.tape_edge.specs.Streams.{AppendsFront};
ghost use Rattle.tree_listing.specs.Listing.{key_line};
ghost use Rattle.tree_listing.specs.Steps.{next_names, shown, IsPassedOn, IsPut, StaysWhere};

use crate::texts::{put_key, put_line};
use index_model::Node;
use session_script::push_escaped;
use std::alloc::Global;
use tape_edge::{Sink, WriteFault};
use tape_types::node_keys::Xattr;
use tape_types::{NoMemory, Text};

/// So many bytes of lines are passed on together, or a few more.
const FULL: usize = 32_768;

/// Lines that are put together, and are passed on when there are enough of them.
#[derive(Drop)]
pub struct Lines {
    /// The lines that are held.
    pub text: Vec<u8>,
    /// The text of the names of the last path.
    pub names: Vec<u8>,
    /// Where that text ended for each node, by place.
    pub ends: Vec<usize>,
    /// The last name, escaped.
    pub name: String,
}

impl Lines {
    /// No line yet, with room for so many nodes.
    pub fn new(alloc: Global, count: usize) -> Result<Lines, NoMemory>
        ensures { IfOk result (λ lines. (lines.text.items ≡ []) × (lines.names.items ≡ []) × (lines.ends.items ≡ [])) }
    {
        let ends = Vec::with_capacity(alloc, count)?;
        Ok(Lines {
            text: Vec::new(alloc),
            names: Vec::new(alloc),
            ends,
            name: String::new(alloc),
        })
    }

    /// Puts the line of the next node behind the others. The nodes come each behind its directory, and all of a
    /// directory's together.
    pub fn put(&mut self, alloc: Global, all: bool, node: &Node) -> Result<(), NoMemory>
        ensures { OnOk result (IsPut all self.old self.new node.now) }
    {
        go_on(&mut self.names, &mut self.name, &self.ends, node)?;
        self.ends.push(self.names.len())?;
        put_line(alloc, &mut self.text, all, &self.names, node)
    }

    /// Puts the line of an attribute of the last node behind the others.
    pub fn put_key(&mut self, alloc: Global, xattr: &Xattr) -> Result<(), NoMemory>
        ensures text { OnOk result (self.new.text.items
            ≡ self.old.text.items ++ key_line (shown self.old.names.items) (xattr.now.key, xattr.now.value)) }
        ensures stays { StaysWhere self.old self.new }
    {
        put_key(alloc, &mut self.text, &self.names, xattr)
    }

    /// Writes the lines that are held, where there are enough of them.
    pub fn pass_on<K: Sink>(&mut self, out: &mut K) -> Result<(), WriteFault>
        ensures ok { OnOk result
            (IsPassedOn (K.written out.old) (K.written out.new) self.old.text.items self.new.text.items) }
        ensures err { OnErr result (AppendsFront (K.written out.old) (K.written out.new) self.old.text.items) }
        ensures cause { HasCause (K.faults out.old) (K.faults out.new) result }
        ensures stays { StaysWhere self.old self.new }
    {
        if self.text.len() < FULL {
            return Ok(());
        }
        out.write(&self.text)?;
        self.text.clear();
        Ok(())
    }
}

/// Makes the text of the last path that of the next node.
fn go_on(
    names: &mut Vec<u8>,
    name: &mut String,
    ends: &[usize],
    node: &Node,
) -> Result<(), NoMemory>
    ensures { OnOk result (names.new.items ≡ next_names ends.now names.old.items node.now) }
{
    if ends.is_empty() {
        return Ok(());
    }
    names.truncate(end_of(ends, node.parent));
    put_name(names, name, &node.name)
}

/// Where the text of the path at this place ended.
fn end_of(ends: &[usize], place: u32) -> usize
    ensures { result ≡ get_or ends.now place 0 }
{
    match ends.get(place as usize) {
        Some(end) => *end,
        None => 0,
    }
}

fn put_name(names: &mut Vec<u8>, name: &mut String, text: &Text) -> Result<(), NoMemory>
    ensures { OnOk result (names.new.items ≡ names.old.items ++ codes "/" ++ escaped text.now) }
{
    name.clear();
    push_escaped(name, text.as_str().as_bytes())?;
    names.push(b'/')?;
    names.extend_from_slice(name.as_bytes())?;
    Ok(())
}
