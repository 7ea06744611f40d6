//! What the streams are that OLE and its property sets lay beside an object's own.

ghost use Rattle.tell_forms.specs.Streams.{stream_meaning};
ghost use Rattle.std.specs.Prelude.{◌≡◌};

/// What the stream of a name is, by MS-OLEDS 2.3.3, 2.3.4, 2.3.6 and 2.3.8 and MS-OLEPS 2.23; nothing where the name
/// doesn't tell.
pub fn stream_meaning(name: &[u8]) -> &'static [u8]
    ensures { result.now ≡ stream_meaning name.now }
{
    if name == b"\x01Ole".as_slice() {
        b"OLE: linked or embedded".as_slice()
    } else if name == b"\x01CompObj".as_slice() {
        b"OLE: class and format of the object".as_slice()
    } else if name.starts_with(b"\x02OlePres") {
        b"OLE: picture of the object".as_slice()
    } else if name == b"\x01Ole10Native".as_slice() {
        b"OLE: data of a native object".as_slice()
    } else if name == b"\x05SummaryInformation".as_slice() {
        b"properties: title, author, times".as_slice()
    } else if name == b"\x05DocumentSummaryInformation".as_slice() {
        b"properties: of the document".as_slice()
    } else {
        b"".as_slice()
    }
}
