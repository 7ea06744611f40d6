//! The names of classes that are known: those that Microsoft's programs register for their documents, under `CLSID` in
//! the registry of Windows, and by these class ids in the roots of their files.

ghost use Rattle.tell_forms.specs.Classes.{class_name, installer_name, mail_name, object_name, office_name, show_name};
ghost use Rattle.std.specs.Prelude.{◌≡◌};

/// The name of the class of an id that is spelled so: the id as it is spelled where it isn't known, and nothing for the
/// id of zeros.
pub fn class_name<'a>(id: &'a [u8]) -> &'a [u8]
    ensures { result.now ≡ class_name id.now }
{
    if id == b"00000000-0000-0000-0000-000000000000".as_slice() {
        b"".as_slice()
    } else if id == b"00020906-0000-0000-c000-000000000046".as_slice() {
        b"Word document".as_slice()
    } else if id == b"00020900-0000-0000-c000-000000000046".as_slice() {
        b"Word 6 document".as_slice()
    } else if id == b"00020820-0000-0000-c000-000000000046".as_slice() {
        b"Excel sheet".as_slice()
    } else {
        office_name(id)
    }
}

/// The name of another class of Excel.
fn office_name<'a>(id: &'a [u8]) -> &'a [u8]
    ensures { result.now ≡ office_name id.now }
{
    if id == b"00020810-0000-0000-c000-000000000046".as_slice() {
        b"Excel 5 sheet".as_slice()
    } else if id == b"00020821-0000-0000-c000-000000000046".as_slice() {
        b"Excel chart".as_slice()
    } else {
        show_name(id)
    }
}

/// The name of a class of PowerPoint.
fn show_name<'a>(id: &'a [u8]) -> &'a [u8]
    ensures { result.now ≡ show_name id.now }
{
    if id == b"64818d10-4f9b-11cf-86ea-00aa00b929e8".as_slice() {
        b"PowerPoint presentation".as_slice()
    } else if id == b"64818d11-4f9b-11cf-86ea-00aa00b929e8".as_slice() {
        b"PowerPoint slide".as_slice()
    } else {
        mail_name(id)
    }
}

/// The name of a class of mail and drawings.
fn mail_name<'a>(id: &'a [u8]) -> &'a [u8]
    ensures { result.now ≡ mail_name id.now }
{
    if id == b"00020d0b-0000-0000-c000-000000000046".as_slice() {
        b"Outlook message".as_slice()
    } else if id == b"00021a14-0000-0000-c000-000000000046".as_slice() {
        b"Visio drawing".as_slice()
    } else {
        installer_name(id)
    }
}

/// The name of a class of Windows Installer.
fn installer_name<'a>(id: &'a [u8]) -> &'a [u8]
    ensures { result.now ≡ installer_name id.now }
{
    if id == b"000c1084-0000-0000-c000-000000000046".as_slice() {
        b"Installer package".as_slice()
    } else if id == b"000c1086-0000-0000-c000-000000000046".as_slice() {
        b"Installer patch".as_slice()
    } else if id == b"000c1082-0000-0000-c000-000000000046".as_slice() {
        b"Installer transform".as_slice()
    } else {
        object_name(id)
    }
}

/// The name of a class of objects that stand in documents.
fn object_name<'a>(id: &'a [u8]) -> &'a [u8]
    ensures { result.now ≡ object_name id.now }
{
    if id == b"00020803-0000-0000-c000-000000000046".as_slice() {
        b"Graph chart".as_slice()
    } else if id == b"0002ce02-0000-0000-c000-000000000046".as_slice() {
        b"equation".as_slice()
    } else if id == b"0003000c-0000-0000-c000-000000000046".as_slice() {
        b"package".as_slice()
    } else if id == b"d3e34b21-9d75-101a-8c3d-00aa001a1652".as_slice() {
        b"Paint picture".as_slice()
    } else {
        id
    }
}
