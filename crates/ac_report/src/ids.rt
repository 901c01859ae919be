//! UUIDs as JSON.
ghost use Rattle.std.specs.Prelude.{◌≡◌, OnOk};
ghost use Rattle.serde.specs.declared.name.Case.TheVariants.{AsIs};
ghost use Rattle.serde.specs.Event.{Logs, field_key, text};
ghost use Rattle.ac_base.specs.Texts.{id_text};

use ac_base::Id;
use serde::Serializer;

// Puts the written form of an id into some room.
fn write_id(id: Id, room: &mut [u8; 36]) -> &str
    ensures { result.now ≡ id_text id }
{
    *room = id.text();
    match std::str::from_utf8(room) {
        Ok(text) => text,
        Err(_) => unreachable!(),
    }
}

// Sends an id in written form.
pub(crate) fn send_id<S: Serializer>(id: Id, out: &mut S) -> Result<(), S::Error>
    ensures { OnOk result (Logs (S.written out.old) (S.written out.new) (text (id_text id))) }
{
    out.str(write_id(id, &mut [0; 36]))
}

// Sends an id in written form, as the name of a member.
pub(crate) fn send_name<S: Serializer>(id: Id, out: &mut S) -> Result<(), S::Error>
    ensures { OnOk result (Logs (S.written out.old) (S.written out.new)
        (field_key (id_text id) AsIs)) }
{
    out.key(write_id(id, &mut [0; 36]))
}
