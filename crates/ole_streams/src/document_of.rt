//! The document that a tree holds.

ghost use Rattle.std.specs.Prelude.{[], ◌≡◌, ◌≢◌, ◌<◌, ◌≤◌, Err, IfErr, IfOk, IsOk, length};
ghost use Rattle.std.specs.Option.{option_map};
ghost use Rattle.cfb_names.specs.Names.{key};
ghost use Rattle.tree_streams.specs.Limits.{COMP_OBJ, OLE, OLE_PRES};
ghost use Rattle.ole_model.specs.CompObjs.{user_type_read};
ghost use Rattle.ole_model.specs.Documents.{no_objects};
ghost use Rattle.ole_model.specs.DocOf.{as_picture, as_storage, as_stream, behind_comp_obj, behind_layout};
ghost use Rattle.ole_model.specs.DocOf.{behind_picture, doc_read, object_of, object_pushed, object_read};
ghost use Rattle.ole_model.specs.DocOf.{objects_behind, session_of_bytes, session_read, streams_behind};
ghost use Rattle.ole_model.specs.DocTree.{LAYOUT, SESSION, object_name};
ghost use Rattle.ole_model.specs.Fields.{map_ok, on_ok};
ghost use Rattle.ole_model.specs.Layouts.{layout_read};
ghost use Rattle.ole_model.specs.OleStreams.{ole_read};
ghost use Rattle.ole_model.specs.declared.fault.OleFault.TheVariants.{NoMemory};
ghost use Rattle.ole_streams.specs.Begun.{first_behind_ole, first_stream, first_user_type, layout_of, object_user_type};
ghost use Rattle.ole_streams.specs.Begun.{user_type_in, user_type_of};
ghost use Rattle.ole_streams.specs.declared.doc.TheConstants.{MOST_OBJECTS};
ghost use Rattle.tree_storage.specs.Change.{find, without};
ghost use Rattle.tree_storage.specs.Kept.{kept};
ghost use Rattle.tree_storage.specs.View.{children, shown, view};

use crate::doc::{Doc, DocObject};
use crate::layout::read_layout;
use crate::names;
use cfb_names::key::Key;
use cfb_names::name::{Name, key};
use ole_model::comp_obj::CompObj;
use ole_model::fault::OleFault;
use ole_model::ole_stream::OleStream;
use std::alloc::Global;
use std::collections::BTreeMap;
use tree_storage::storage::{Node, Storage};
use tree_storage::tree::Tree;
use tree_streams::area::Area;
use tree_streams::fault::StreamsFault;
use tree_streams::limits::{comp_obj, ole, ole_pres};
use tree_streams::stored::Stored;
use tree_streams::streams::{NamedStream, Streams};
use tree_values::bytes::Bytes;
use tree_values::class_id::ClassId;

/// The children of a storage.
type Entries = BTreeMap<Key, (Name, Node)>;

/// Takes away what stands under a name.
fn take(entries: &mut Entries, name: &Name) -> Option<(Name, Node)>
    ensures value { option_map shown result ≡ find (key name.now) (children entries.old.entries) }
    ensures rest { children entries.new.entries ≡ without (key name.now) (children entries.old.entries) }
{
    entries.remove(&key(name))
}

/// Takes away the stream of a name.
fn take_stream(entries: &mut Entries, name: &Name) -> Result<Bytes, OleFault>
    ensures value { result ≡ as_stream (find (key name.now) (children entries.old.entries)) }
    ensures rest { children entries.new.entries ≡ without (key name.now) (children entries.old.entries) }
    ensures memory { IfErr result (λ fault. fault ≢ NoMemory) }
{
    match take(entries, name) {
        Some((_, Node::Stream(bytes))) => Ok(bytes),
        Some((_, Node::Storage(_))) => Err(OleFault::NotADocument),
        None => Err(OleFault::NotADocument),
    }
}

/// Takes away the storage of a name.
fn take_storage(entries: &mut Entries, name: &Name) -> Result<Storage, OleFault>
    ensures value { map_ok view result ≡ as_storage (find (key name.now) (children entries.old.entries)) }
    ensures rest { children entries.new.entries ≡ without (key name.now) (children entries.old.entries) }
    ensures memory { IfErr result (λ fault. fault ≢ NoMemory) }
{
    match take(entries, name) {
        Some((_, Node::Storage(storage))) => Ok(storage),
        Some((_, Node::Stream(_))) => Err(OleFault::NotADocument),
        None => Err(OleFault::NotADocument),
    }
}

/// Takes away the picture; where there is no stream of it, it is empty.
fn take_picture(alloc: Global, entries: &mut Entries) -> Result<Bytes, OleFault>
    ensures value { result ≡ as_picture (find (key OLE_PRES) (children entries.old.entries)) }
    ensures rest { children entries.new.entries ≡ without (key OLE_PRES) (children entries.old.entries) }
    ensures memory { IfErr result (λ fault. fault ≢ NoMemory) }
{
    match take(entries, &ole_pres()) {
        Some((_, Node::Stream(bytes))) => Ok(bytes),
        Some((_, Node::Storage(_))) => Err(OleFault::NotADocument),
        None => Ok(Bytes::new(alloc)),
    }
}

/// Takes away `\1CompObj`, and gives the user type that it says.
fn take_user_type(alloc: Global, entries: &mut Entries) -> Result<Bytes, OleFault>
    ensures value { result ≢ Err NoMemory → result ≡ on_ok user_type_read
        (as_stream (find (key COMP_OBJ) (children entries.old.entries))) }
    ensures rest { children entries.new.entries ≡ without (key COMP_OBJ) (children entries.old.entries) }
    ensures wanting { result ≡ Err NoMemory → IsOk (user_type_in (children entries.old.entries)) }
{
    match take_stream(entries, &comp_obj()) {
        Ok(bytes) => match CompObj::read(alloc, bytes.as_slice()) {
            Ok(read) => Ok(read.user_type),
            Err(fault) => Err(fault),
        },
        Err(fault) => Err(fault),
    }
}

/// Takes away `\1Ole`.
fn take_ole(entries: &mut Entries) -> Result<OleStream, OleFault>
    ensures value { map_ok (λ _. tt) result ≡ on_ok ole_read
        (as_stream (find (key OLE) (children entries.old.entries))) }
    ensures rest { children entries.new.entries ≡ without (key OLE) (children entries.old.entries) }
    ensures memory { IfErr result (λ fault. fault ≢ NoMemory) }
{
    match take_stream(entries, &ole()) {
        Ok(bytes) => OleStream::read(bytes.as_slice()),
        Err(fault) => Err(fault),
    }
}

/// The streams that are left of an object, where there is no storage among them.
fn streams_of(alloc: Global, entries: Entries) -> Result<Streams, OleFault>
    ensures value { result ≢ Err NoMemory → result ≡ streams_behind [] (children entries.entries) }
    ensures wanting { result ≡ Err NoMemory → IsOk (first_stream (children entries.entries)) }
{
    let mut streams = Streams::new(alloc);
    for (_, (name, node)) in entries {
        match node {
            Node::Stream(bytes) => match streams.push(NamedStream { name, bytes }) {
                Ok(()) => {}
                Err(StreamsFault::OutOfOrder) => return Err(OleFault::NotADocument),
                Err(StreamsFault::NoMemory) => return Err(OleFault::NoMemory),
            },
            Node::Storage(_) => return Err(OleFault::NotADocument),
        }
    }
    Ok(streams)
}

/// The object whose own streams these are.
fn object_of(
    alloc: Global,
    area: Area,
    class: ClassId,
    picture: Bytes,
    user_type: Bytes,
    entries: Entries,
) -> Result<DocObject, OleFault>
    ensures value { result ≢ Err NoMemory → result ≡ object_of area class picture user_type (children entries.entries) }
    ensures wanting { result ≡ Err NoMemory → IsOk (first_stream (children entries.entries)) }
{
    match streams_of(alloc, entries) {
        Ok(streams) => Ok(DocObject {
            class,
            user_type,
            area,
            stored: Stored { streams, picture },
        }),
        Err(fault) => Err(fault),
    }
}

/// The object whose picture and user type are known.
fn behind_comp_obj(
    alloc: Global,
    area: Area,
    class: ClassId,
    picture: Bytes,
    user_type: Bytes,
    entries: Entries,
) -> Result<DocObject, OleFault>
    ensures value { result ≢ Err NoMemory → result ≡ behind_comp_obj area class picture user_type
        (children entries.entries) }
    ensures wanting { result ≡ Err NoMemory → IsOk (first_behind_ole (children entries.entries)) }
{
    let mut entries = entries;
    match take_ole(&mut entries) {
        Ok(_) => object_of(alloc, area, class, picture, user_type, entries),
        Err(fault) => Err(fault),
    }
}

/// The object whose picture is known.
fn behind_picture(
    alloc: Global,
    area: Area,
    class: ClassId,
    picture: Bytes,
    entries: Entries,
) -> Result<DocObject, OleFault>
    ensures value { result ≢ Err NoMemory → result ≡ behind_picture area class picture (children entries.entries) }
    ensures wanting { result ≡ Err NoMemory → IsOk (user_type_in (children entries.entries)) }
{
    let mut entries = entries;
    match take_user_type(alloc, &mut entries) {
        Ok(user_type) => behind_comp_obj(alloc, area, class, picture, user_type, entries),
        Err(fault) => Err(fault),
    }
}

/// The object of a storage.
fn read_object(alloc: Global, area: Area, storage: Storage) -> Result<DocObject, OleFault>
    ensures value { result ≢ Err NoMemory → result ≡ object_read area (view storage) }
    ensures wanting { result ≡ Err NoMemory → IsOk (user_type_of (view storage)) }
{
    let Storage {
        class,
        state: _,
        children,
    } = storage;
    let mut entries = children;
    match take_picture(alloc, &mut entries) {
        Ok(picture) => behind_picture(alloc, area, class, picture, entries),
        Err(fault) => Err(fault),
    }
}

/// Puts the object of this number to the end of a document.
fn push_object(
    alloc: Global,
    doc: &mut Doc,
    number: usize,
    area: Area,
    entries: &mut Entries,
) -> Result<(), OleFault>
    requires { number < 100 }
    ensures value { result ≢ Err NoMemory → map_ok (λ _. doc.new) result ≡ object_pushed doc.old number area
        (children entries.old.entries) }
    ensures rest { children entries.new.entries ≡ without (key (object_name number)) (children entries.old.entries) }
    ensures wanting { result ≡ Err NoMemory → IsOk (object_user_type number (children entries.old.entries)) }
{
    match take_storage(entries, &names::object(number)) {
        Ok(storage) => match read_object(alloc, area, storage) {
            Ok(object) => doc.push(object),
            Err(fault) => Err(fault),
        },
        Err(fault) => Err(fault),
    }
}

/// The document of this session, these areas and storages, where there is nothing else.
fn objects_of(
    alloc: Global,
    session: u32,
    areas: &[Area],
    entries: Entries,
) -> Result<Doc, OleFault>
    requires { length areas.now ≤ MOST_OBJECTS }
    ensures value { result ≢ Err NoMemory → result ≡ objects_behind (no_objects session) 1 areas.now
        (children entries.entries) }
    ensures wanting { result ≡ Err NoMemory → IsOk (object_user_type 1 (children entries.entries)) }
{
    let mut entries = entries;
    let mut doc = Doc::new(alloc, session);
    for (index, area) in areas.iter().enumerate() {
        match push_object(alloc, &mut doc, index + 1, *area, &mut entries) {
            Ok(()) => {}
            Err(fault) => return Err(fault),
        }
    }
    if !entries.is_empty() {
        return Err(OleFault::NotADocument);
    }
    Ok(doc)
}

/// Takes away the stream `Layout`, and gives the areas that it says.
fn take_areas(alloc: Global, entries: &mut Entries) -> Result<Vec<Area>, OleFault>
    ensures value { result ≢ Err NoMemory → map_ok (λ areas. areas.items) result
        ≡ on_ok layout_read (as_stream (find (key LAYOUT) (children entries.old.entries))) }
    ensures rest { children entries.new.entries ≡ without (key LAYOUT) (children entries.old.entries) }
    ensures wanting { result ≡ Err NoMemory
        → IsOk (on_ok layout_read (as_stream (find (key LAYOUT) (children entries.old.entries)))) }
    ensures few { IfOk result (λ areas. length areas.items ≤ MOST_OBJECTS) }
{
    match take_stream(entries, &names::layout()) {
        Ok(bytes) => read_layout(alloc, bytes.as_slice()),
        Err(fault) => Err(fault),
    }
}

/// The session that a stream's bytes say, which are four.
fn session_in(bytes: &[u8]) -> Result<u32, OleFault>
    ensures value { result ≡ session_of_bytes bytes.now }
    ensures memory { IfErr result (λ fault. fault ≢ NoMemory) }
{
    match bytes.as_array::<4>() {
        Some(number) => Ok(u32::from_le_bytes(*number)),
        None => Err(OleFault::NotADocument),
    }
}

/// Takes away the stream `Session`, and gives the number that it says; where there is no such stream it is 0.
fn take_session(entries: &mut Entries) -> Result<u32, OleFault>
    ensures value { result ≡ session_read (find (key SESSION) (children entries.old.entries)) }
    ensures rest { children entries.new.entries ≡ without (key SESSION) (children entries.old.entries) }
    ensures memory { IfErr result (λ fault. fault ≢ NoMemory) }
{
    match take(entries, &names::session()) {
        Some((_, Node::Stream(bytes))) => session_in(bytes.as_slice()),
        Some((_, Node::Storage(_))) => Err(OleFault::NotADocument),
        None => Ok(0),
    }
}

/// The document of these areas, whose session stands among the storages.
fn behind_layout(alloc: Global, areas: &[Area], entries: Entries) -> Result<Doc, OleFault>
    requires { length areas.now ≤ MOST_OBJECTS }
    ensures value { result ≢ Err NoMemory → result ≡ behind_layout areas.now (children entries.entries) }
    ensures wanting { result ≡ Err NoMemory → IsOk (first_user_type (children entries.entries)) }
{
    let mut entries = entries;
    match take_session(&mut entries) {
        Ok(session) => objects_of(alloc, session, areas, entries),
        Err(fault) => Err(fault),
    }
}

/// The document that a tree holds, whatever its root's class id and all state bits are. What open transactions kept is
/// dropped. What the tree's streams hold is moved into the document, and not copied.
///
/// The stream `Layout` is read first, then `Session`, then the objects one after another, of each its picture,
/// `\1CompObj`, `\1Ole` and its own streams. Refused, whichever comes first: `TooManyObjects` where `Layout` counts
/// more than 64 objects; `Truncated`, `BadVersion`, `Linked` and `BadString` where an object's `\1CompObj` or `\1Ole`
/// is so; `NotADocument` where `Layout` is missing or bad, where `Session` is a storage or hasn't four bytes, where an
/// object's storage or one of these streams is missing, where a storage stands in an object or a content is past its
/// limits, and where anything else stands in the root. Each object's strings and streams take memory as they are read,
/// so `NoMemory` may come before a fault that stands further on; `Layout` is looked at before it takes any. A refusal
/// drops the tree.
pub fn document_of(alloc: Global, tree: Tree) -> Result<Doc, OleFault>
    ensures value { result ≢ Err NoMemory → result ≡ doc_read (kept tree).now }
    ensures wanting { result ≡ Err NoMemory → IsOk (layout_of (kept tree).now) }
{
    let Storage {
        class: _,
        state: _,
        children,
    } = tree.into_root();
    let mut entries = children;
    match take_areas(alloc, &mut entries) {
        Ok(areas) => behind_layout(alloc, &areas, entries),
        Err(fault) => Err(fault),
    }
}
