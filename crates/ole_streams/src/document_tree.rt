//! The tree of a document.

ghost use Rattle.std.specs.Prelude.{[], ◌≡◌, ◌≤◌, ◌<◌, ℕ, IfOk, OnOk, length, true};
ghost use Rattle.cfb_names.specs.Names.{IsName};
ghost use Rattle.ole_model.specs.DocOf.{is_object};
ghost use Rattle.ole_model.specs.DocTree.{doc_tree, object_children, object_tree, placed, with_objects};
ghost use Rattle.ole_model.specs.DocTree.{with_ole_streams, with_picture, with_session, with_streams};
ghost use Rattle.ole_model.specs.CompObjs.{PAST_USER_TYPE};
ghost use Rattle.ole_streams.specs.Docs.{AreHeld};
ghost use Rattle.ole_streams.specs.declared.doc.TheConstants.{MOST_OBJECTS};
ghost use Rattle.tree_storage.specs.Change.{bytes as stream_seen};
ghost use Rattle.tree_storage.specs.Kept.{kept};
ghost use Rattle.cfb_entries.specs.Tree.{none};
ghost use Rattle.tree_storage.specs.View.{children, seen, view};
ghost use Rattle.cfb_entries.specs.Whole.{AreTrees, IsTree, IsWhole};

use crate::doc::{Doc, DocObject};
use crate::layout::write_layout;
use crate::names;
use cfb_names::key::Key;
use cfb_names::name::{Name, key};
use ole_model::comp_obj::write_stream;
use ole_model::ole_stream::OleStream;
use std::alloc::{AllocError, Global};
use std::collections::BTreeMap;
use tree_storage::storage::{Node, Storage};
use tree_storage::tree::Tree;
use tree_streams::limits::{comp_obj, ole, ole_pres};
use tree_streams::stored::Stored;
use tree_streams::streams::NamedStream;
use tree_values::bytes::Bytes;
use tree_values::class_id::ClassId;

/// The children of a storage.
type Entries = BTreeMap<Key, (Name, Node)>;

/// Puts a child under its name.
fn place(entries: &mut Entries, name: Name, node: Node) -> Result<(), AllocError>
    ensures value { OnOk result (children entries.new.entries ≡ placed name (seen node)
        (children entries.old.entries)) }
    ensures whole { OnOk result ((depth : ℕ) → IsWhole depth (seen node)
        → AreTrees depth (children entries.old.entries) → AreTrees depth (children entries.new.entries)) }
{
    // The characters are read for what is promised of them: that the name is valid.
    let _ = name.as_bytes();
    entries.insert(key(&name), (name, node))?;
    Ok(())
}

/// Puts a stream under its name.
fn place_stream(entries: &mut Entries, name: Name, bytes: Bytes) -> Result<(), AllocError>
    ensures value { OnOk result (children entries.new.entries ≡ placed name (stream_seen bytes)
        (children entries.old.entries)) }
    ensures whole { OnOk result ((depth : ℕ) → AreTrees depth (children entries.old.entries)
        → AreTrees depth (children entries.new.entries)) }
{
    place(entries, name, Node::Stream(bytes))
}

/// These streams as the children of a storage.
fn with_streams(alloc: Global, streams: Vec<NamedStream>) -> Result<Entries, AllocError>
    ensures value { IfOk result (λ entries. children entries.entries ≡ with_streams streams.items none) }
    ensures whole { IfOk result (λ entries. (depth : ℕ) → AreTrees depth (children entries.entries)) }
{
    let mut streams = streams;
    let mut entries = BTreeMap::new(alloc);
    while let Some(stream) = streams.pop() {
        place_stream(&mut entries, stream.name, stream.bytes)?;
    }
    Ok(entries)
}

/// Puts the stream of a picture, unless that is empty.
fn place_picture(entries: &mut Entries, picture: Bytes) -> Result<(), AllocError>
    ensures value { OnOk result (children entries.new.entries ≡ with_picture picture (children entries.old.entries)) }
    ensures whole { OnOk result ((depth : ℕ) → AreTrees depth (children entries.old.entries)
        → AreTrees depth (children entries.new.entries)) }
{
    if picture.is_empty() {
        return Ok(());
    }
    place_stream(entries, ole_pres(), picture)
}

/// Puts the three OLE streams of an object beside its own.
fn place_ole_streams(
    alloc: Global,
    entries: &mut Entries,
    class: ClassId,
    user_type: &[u8],
    picture: Bytes,
) -> Result<(), AllocError>
    requires { length user_type.now < PAST_USER_TYPE }
    ensures value { OnOk result (children entries.new.entries ≡ with_ole_streams class user_type.now picture
        (children entries.old.entries)) }
    ensures whole { OnOk result ((depth : ℕ) → AreTrees depth (children entries.old.entries)
        → AreTrees depth (children entries.new.entries)) }
{
    let says_ole = Vec::from_slice(alloc, &OleStream.write())?;
    place_stream(entries, ole(), Bytes::from_vec(alloc, says_ole)?)?;
    place_stream(entries, comp_obj(), write_stream(alloc, class, user_type)?)?;
    place_picture(entries, picture)
}

/// The storage of an object.
fn object_storage(alloc: Global, object: DocObject) -> Result<Storage, AllocError>
    requires { is_object object ≡ true }
    ensures value { IfOk result (λ s. view s ≡ object_tree object) }
    ensures whole { IfOk result (λ s. (depth : ℕ) → IsTree depth (view s)) }
{
    let DocObject {
        class,
        user_type,
        area: _,
        stored,
    } = object;
    let Stored { streams, picture } = stored;
    let mut entries = with_streams(alloc, streams.into_vec())?;
    place_ole_streams(alloc, &mut entries, class, user_type.as_slice(), picture)?;
    Ok(Storage {
        class,
        state: 0,
        children: entries,
    })
}

/// The storages of objects as the children of a storage.
fn with_objects(alloc: Global, objects: Vec<DocObject>) -> Result<Entries, AllocError>
    requires few { length objects.items ≤ MOST_OBJECTS }
    requires within { AreHeld objects.items }
    ensures value { IfOk result (λ entries. children entries.entries ≡ with_objects 1 objects.items none) }
    ensures whole { IfOk result (λ entries. AreTrees 32 (children entries.entries)) }
{
    let mut objects = objects;
    let mut entries = BTreeMap::new(alloc);
    while let Some(object) = objects.pop() {
        let name = names::object(objects.len() + 1);
        let storage = object_storage(alloc, object)?;
        place(&mut entries, name, Node::Storage(storage))?;
    }
    Ok(entries)
}

/// Puts the stream of a session, unless that is 0.
fn place_session(alloc: Global, entries: &mut Entries, session: u32) -> Result<(), AllocError>
    ensures value { OnOk result (children entries.new.entries ≡ with_session session (children entries.old.entries)) }
    ensures whole { OnOk result ((depth : ℕ) → AreTrees depth (children entries.old.entries)
        → AreTrees depth (children entries.new.entries)) }
{
    if session == 0 {
        return Ok(());
    }
    let number = Vec::from_slice(alloc, &session.to_le_bytes())?;
    place_stream(entries, names::session(), Bytes::from_vec(alloc, number)?)
}

/// The tree of a document, outside transactions: the root's class id, a storage for each object with its streams, the
/// stream `Session` unless that is 0, and the stream `Layout`. What the document's contents hold is moved into the
/// tree, and not copied.
///
/// Refused for want of memory alone; then the document is dropped.
pub fn document_tree(alloc: Global, doc: Doc) -> Result<Tree, AllocError>
    ensures { IfOk result (λ t. kept t ≡ record { now = doc_tree doc; saved = [] }) }
{
    let layout = write_layout(alloc, doc.as_slice())?;
    let session = doc.session();
    let mut entries = with_objects(alloc, doc.into_vec())?;
    place_session(alloc, &mut entries, session)?;
    place_stream(&mut entries, names::layout(), layout)?;
    let root = Storage {
        class: names::root_class(),
        state: 0,
        children: entries,
    };
    Ok(Tree::from_root(alloc, root))
}
