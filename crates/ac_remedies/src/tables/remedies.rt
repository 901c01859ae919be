//! What to do about each kind of fault of a record.
ghost use Rattle.std.specs.Prelude.{◌≡◌};
ghost use Rattle.ac_remedies.specs.Tables.{remedy_text};

use ac_tables::TableKind;

// What to do about a fault of this kind.
#[tactic(auto, unfolding(crate::specs::Tables::remedy_text))]
pub(super) fn remedy_text(kind: TableKind) -> &'static [u8]
    ensures { result.now ≡ remedy_text kind }
{
    match kind {
        TableKind::NoHeader => b"the file has no record; export the table again, with its header",
        TableKind::MissingColumn =>
            b"the header lacks this column; export the table with all its columns",
        TableKind::DoubleColumn => b"the header has this column twice; take one of them out",
        TableKind::Width =>
            b"a record has as many fields as the header; put a field with a comma in quotes",
        TableKind::BadUuid =>
            b"not a UUID; give one of 32 hexadecimal digits, and take out a header between records",
        TableKind::BadClass =>
            b"a class is written A-Z, 0-9 and _; give its name as the cloud has it",
        TableKind::BadTrait =>
            b"a trait is written A-Z, 0-9 and _; give its name as the cloud has it",
        TableKind::BadNumber =>
            b"1 to 10 digits, at most 2147483647; write no sign, point or blank",
        TableKind::BadRatio =>
            b"at most six decimals and no exponent; export with --round-ratios; lower one over 1000000 in the cloud",
        TableKind::ZeroStep =>
            b"a step is at least 1; set step_size to 1 or more in the cloud, and export again",
        TableKind::ReservedOverTotal =>
            b"reserved is at most total; lower it in the cloud, and export again",
        TableKind::Duplicate => b"an earlier record has the same; take one of them out",
        TableKind::UnknownProvider =>
            b"not in the table of providers; export all tables together, or take the record out",
        TableKind::NoInventory =>
            b"the provider has no inventory of this class; export all tables together, or take the record out",
        TableKind::TooManyProviders =>
            b"more than 65536 providers; take whole trees out, in each table",
        TableKind::UnknownParent => b"not in the table of providers; export the whole table",
        TableKind::ParentCycle => b"the parents from here on go in a circle; correct one of them",
        TableKind::WrongRoot =>
            b"not the root of the provider's tree; give the UUID of its topmost parent, or its own if it has none",
    }
}
