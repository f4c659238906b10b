//! Reading a scenario's keys.
use crate::facts::agree;
use scenario_fields::place::{item_text, path_text};
use scenario_fields::{Characters, Fields, LaneAt, Path, ScenarioFault, TablePlace};
use std::alloc::Global;
use std::test::Fail;
use toml::Table;

const PLACES: [(TablePlace, &str); 12] = [
    (TablePlace::Top, "copies"),
    (TablePlace::Issuer, "issuer.copies"),
    (TablePlace::Account(1), "account[1].copies"),
    (TablePlace::Scripts(0, 12), "account[0].scripts[12].copies"),
    (TablePlace::Card(63), "card[63].copies"),
    (TablePlace::App(1, 2), "card[1].app[2].copies"),
    (
        TablePlace::Record(0, 1, 3),
        "card[0].app[1].record[3].copies",
    ),
    (TablePlace::Lane(LaneAt::Numbered(4)), "lane[4].copies"),
    (
        TablePlace::Aid(LaneAt::Numbered(1), 0),
        "lane[1].aid[0].copies",
    ),
    (
        TablePlace::Purchase(LaneAt::Numbered(0), 9999),
        "lane[0].purchase[9999].copies",
    ),
    (
        TablePlace::Tear(LaneAt::Numbered(2), 3),
        "lane[2].purchase[3].tear.copies",
    ),
    (
        TablePlace::TerminalTear(LaneAt::Numbered(2), 3),
        "lane[2].purchase[3].terminal_tear.copies",
    ),
];

/// A lane alone has no index.
const PLACES_OF_ONE: [(TablePlace, &str, &str); 2] = [
    (TablePlace::Lane(LaneAt::Only), "copies", "lane.copies"),
    (
        TablePlace::Aid(LaneAt::Only, 15),
        "name",
        "lane.aid[15].name",
    ),
];

#[test]
fn a_path_names_each_table_with_its_index(rt: HostRuntime) -> Result<(), Fail> {
    for row in &PLACES {
        let (place, wanted) = *row;
        let text = path_text(rt.alloc(), place, "copies")?;
        assert!(rt; text.as_str() == wanted, "{wanted}");
    }
    for row in &PLACES_OF_ONE {
        let (place, key, wanted) = *row;
        let text = path_text(rt.alloc(), place, key)?;
        assert!(rt; text.as_str() == wanted, "{wanted}");
    }
    let item = item_text(rt.alloc(), "commands", 2)?;
    assert!(rt; item.as_str() == "commands[2]");
    Ok(())
}

#[test]
fn a_fault_has_a_line(rt: HostRuntime) -> Result<(), Fail> {
    let path = Path::new(format!(in rt.alloc(); "card[0].name")?);
    let line = ScenarioFault::BadValue { path }.line(rt.alloc())?;
    let plain = ScenarioFault::Toml.line(rt.alloc())?;
    let are_told = line.as_str() == "refused 3 BadValue card[0].name\n"
        && plain.as_str() == "refused 1 Toml\n";
    assert!(rt; are_told && ScenarioFault::OutOfMemory.line(rt.alloc()).is_err());
    Ok(())
}

/// The document of a text.
fn document(alloc: Global, text: &str) -> Option<Table> {
    toml::table_from_str(alloc, text).ok()
}

fn fields(alloc: Global, table: &Table) -> Fields {
    Fields {
        alloc,
        place: TablePlace::Issuer,
        table,
    }
}

#[tactic(auto, unfolding(scenario_fields::specs::Value::is_listed))]
fn format(fields: &Fields) -> Result<u64, ScenarioFault> {
    fields.listed_or(1, "m", &[1, 2])
}

#[test]
fn reads_numbers_and_flags(rt: HostRuntime) {
    let table = document(rt.alloc(), "n = 99\nb = true\na = [7]\n").expect(&rt, "a document");
    let fields = fields(rt.alloc(), &table);
    agree(
        &rt,
        &[
            ("number", fields.number("n", 0, 99).ok() == Some(99)),
            ("number_or", fields.number_or(5, "m", 0, 99).ok() == Some(5)),
            (
                "optional_number",
                fields.optional_number("n", 99, 99).ok() == Some(Some(99)),
            ),
            ("listed_or", format(&fields).ok() == Some(1)),
            ("flag_or", fields.flag_or(false, "b").ok() == Some(true)),
            ("absent", fields.absent("m").is_ok()),
            ("not absent", fields.absent("a").is_err()),
        ],
    );
}

#[test]
fn reads_texts(rt: HostRuntime) {
    let table = document(rt.alloc(), "t = \"ab1\"\n").expect(&rt, "a document");
    let fields = fields(rt.alloc(), &table);
    let kind = Characters::LowercaseOrDigit;
    let owned = fields.owned_text("t", kind, 3, 9).expect(&rt, "t");
    agree(
        &rt,
        &[
            ("str_at", fields.str_at("t").ok() == Some("ab1")),
            (
                "text",
                fields.text("t", kind, 1, 3).ok() == Some(b"ab1".as_slice()),
            ),
            (
                "text_array",
                fields.text_array::<3>("t", kind).ok() == Some(*b"ab1"),
            ),
            ("owned_text", owned.as_slice() == b"ab1".as_slice()),
        ],
    );
}

#[test]
fn reads_digits(rt: HostRuntime) {
    let text = "pan = \"1234\"\nc = \"840\"\nd = \"240615\"\n";
    let table = document(rt.alloc(), text).expect(&rt, "a document");
    let fields = fields(rt.alloc(), &table);
    let pan = fields.digits("pan", 4, 4).expect(&rt, "pan");
    let pin = fields.optional_digits("pin", 4, 4).expect(&rt, "pin");
    agree(
        &rt,
        &[
            ("digits", pan.as_slice() == [1, 2, 3, 4].as_slice()),
            ("optional_digits", pin.is_none()),
            ("code", fields.code("c").ok() == Some([0x08, 0x40])),
            (
                "optional_code",
                fields.optional_code("c").ok() == Some(Some([0x08, 0x40])),
            ),
            ("no code", fields.optional_code("e").ok() == Some(None)),
            ("day", fields.day("d").ok() == Some([0x24, 0x06, 0x15])),
            (
                "six_digits_or",
                fields.six_digits_or([0, 0, 0], "time").ok() == Some([0, 0, 0]),
            ),
        ],
    );
}

#[test]
fn reads_bytes(rt: HostRuntime) {
    let table = document(rt.alloc(), "h = \"0aFf\"\n").expect(&rt, "a document");
    let fields = fields(rt.alloc(), &table);
    let wanted = [0x0A, 0xFF];
    let bytes = fields.bytes("h", 0, 2).expect(&rt, "h");
    let few = fields.few_bytes::<2>("h", 2).expect(&rt, "h");
    agree(
        &rt,
        &[
            ("bytes", bytes.as_slice() == wanted.as_slice()),
            ("few_bytes", few.as_slice() == wanted.as_slice()),
            (
                "byte_array",
                fields.byte_array::<2>("h").ok() == Some(wanted),
            ),
            (
                "optional_byte_array",
                fields.optional_byte_array::<2>("g").ok() == Some(None),
            ),
            (
                "optional_bytes",
                matches!(fields.optional_bytes("h", 1, 2), Ok(Some(_))),
            ),
            (
                "optional",
                fields.optional("h").is_some() && fields.required("h").is_ok(),
            ),
        ],
    );
}

#[test]
fn reads_arrays_and_tables(rt: HostRuntime) {
    let text = "a = [\"12\", \"345\"]\n[t]\nx = 1\n";
    let table = document(rt.alloc(), text).expect(&rt, "a document");
    let fields = fields(rt.alloc(), &table);
    let array = fields.array("a", 2, 2).expect(&rt, "a");
    let none = fields.array_or_none("g", 2).expect(&rt, "g");
    let digits = fields.digits_list("a", 2, 2, 3).expect(&rt, "a");
    let last = digits.last().expect(&rt, "digits");
    let inner = fields.inner("t", TablePlace::Issuer).expect(&rt, "t");
    let absent = fields
        .optional_inner("s", TablePlace::Issuer)
        .expect(&rt, "s");
    agree(
        &rt,
        &[
            ("array", array.len() == 2),
            ("array_or_none", none.is_empty()),
            (
                "digits_list",
                digits.len() == 2 && last.as_slice() == [3, 4, 5].as_slice(),
            ),
            ("inner", inner.table.len() == 1),
            ("optional_inner", absent.is_none()),
            ("only", fields.only(&["a", "t"]).is_ok()),
        ],
    );
}

/// A document, and the fault at its key `k`.
const TEXT_FAULTS: [(&str, &str); 7] = [
    ("", "2 MissingKey issuer.k"),
    ("k = 1", "3 BadValue issuer.k"),
    ("k = \"abcdE\"", "3 BadValue issuer.k"),
    ("k = \"\u{e4}\"", "3 BadValue issuer.k"),
    ("k = \"\"", "4 OutOfLimit issuer.k"),
    ("k = \"abcde\"", "4 OutOfLimit issuer.k"),
    ("k = [\"a\"]", "3 BadValue issuer.k"),
];

const BYTE_FAULTS: [(&str, &str); 5] = [
    ("k = 12", "3 BadValue issuer.k"),
    ("k = \"0\"", "3 BadValue issuer.k"),
    ("k = \"0g0102030405\"", "3 BadValue issuer.k"),
    ("k = \"\"", "4 OutOfLimit issuer.k"),
    ("k = \"010203\"", "4 OutOfLimit issuer.k"),
];

const NUMBER_FAULTS: [(&str, &str); 5] = [
    ("k = \"1\"", "3 BadValue issuer.k"),
    ("k = 1.0", "3 BadValue issuer.k"),
    ("k = -1", "4 OutOfLimit issuer.k"),
    ("k = 0", "4 OutOfLimit issuer.k"),
    ("k = 4", "4 OutOfLimit issuer.k"),
];

fn is_refused<X: Drop>(alloc: Global, read: Result<X, ScenarioFault>, fault: &str) -> bool {
    let Err(found) = read else {
        return false;
    };
    match (found.line(alloc), format!(in alloc; "refused {fault}\n")) {
        (Ok(line), Ok(wanted)) => line.as_str() == wanted.as_str(),
        _ => false,
    }
}

#[test]
fn tells_the_first_rule_of_a_text(rt: HostRuntime) {
    for row in &TEXT_FAULTS {
        let (text, fault) = *row;
        let table = document(rt.alloc(), text).expect(&rt, "a document");
        let read = fields(rt.alloc(), &table).text("k", Characters::LowercaseOrDigit, 1, 4);
        assert!(rt; is_refused(rt.alloc(), read, fault), "{text}");
    }
}

#[test]
fn tells_the_first_rule_of_bytes(rt: HostRuntime) {
    for row in &BYTE_FAULTS {
        let (text, fault) = *row;
        let table = document(rt.alloc(), text).expect(&rt, "a document");
        let read = fields(rt.alloc(), &table).bytes("k", 1, 2);
        assert!(rt; is_refused(rt.alloc(), read, fault), "{text}");
    }
}

#[test]
fn tells_the_first_rule_of_a_number(rt: HostRuntime) {
    for row in &NUMBER_FAULTS {
        let (text, fault) = *row;
        let table = document(rt.alloc(), text).expect(&rt, "a document");
        let read = fields(rt.alloc(), &table).number("k", 1, 3);
        assert!(rt; is_refused(rt.alloc(), read, fault), "{text}");
    }
}

#[test]
fn tells_items_and_unknown_keys(rt: HostRuntime) {
    let text = "z = 1\nk = [\"12\", \"x\"]\ny = 2\n";
    let alloc = rt.alloc();
    let table = document(alloc, text).expect(&rt, "a document");
    let fields = fields(alloc, &table);
    let name: Result<(), ScenarioFault> = Err(fields.spot("k").unknown_name());
    let item = fields.digits_list("k", 2, 1, 2);
    let many = fields.digits_list("k", 1, 1, 2);
    agree(
        &rt,
        &[
            ("item", is_refused(alloc, item, "3 BadValue issuer.k[1]")),
            (
                "least",
                is_refused(alloc, fields.only(&["k"]), "5 UnknownKey issuer.y"),
            ),
            ("many", is_refused(alloc, many, "4 OutOfLimit issuer.k")),
            ("name", is_refused(alloc, name, "6 UnknownName issuer.k")),
        ],
    );
}
