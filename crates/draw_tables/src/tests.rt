use crate::{TableFault, Verdict, judge, read_table, table_text};
use rule_sets::rules_from;
use samples::ROUND_OF_16;
use std::alloc::Global;
use std::process::Abort;
use std::test::Fail;
use team_files::read_head;

/// Two teams with a tag in common that is the second of each.
const TWO_TAGS: &str =
    r#"{"kind":"pairing","teams":[{"code":"BBB","pot":2,"tags":["Y","Z"],"group":"B"},{"code":"AAA","pot":1,"tags":["X","Z"],"group":"A"}]}"#;

/// A legal table, the one that was drawn.
const LEGAL: &str = "RMA MUN MCI LIV AJX JUV BAY LIL";

/// A table with the rule that it breaks first and the two numbers; 0 stands for none.
const TABLES: [(&str, &str, &str, (u32, u32, u32)); 16] = [
    (ROUND_OF_16, "", LEGAL, (0, 0, 0)),
    // rule 1: a winner given twice, one not given before one given twice, a runner-up given
    (
        ROUND_OF_16,
        "",
        "RMA MUN MCI LIV AJX JUV BAY BAY",
        (1, 4, 2),
    ),
    (
        ROUND_OF_16,
        "",
        "RMA MUN MCI LIV AJX JUV LIL LIL",
        (1, 4, 0),
    ),
    (
        ROUND_OF_16,
        "",
        "RMA MUN MCI LIV AJX JUV BAY CHE",
        (1, 6, 0),
    ),
    // rule 1 before rule 2
    (
        ROUND_OF_16,
        "",
        "MCI MUN MCI LIV AJX JUV BAY LIL",
        (1, 0, 2),
    ),
    // rule 2, its first case, and rule 2 before rule 3 of an earlier runner-up
    (
        ROUND_OF_16,
        "",
        "RMA JUV MCI LIV AJX MUN BAY LIL",
        (2, 13, 5),
    ),
    (
        ROUND_OF_16,
        "",
        "MCI LIV RMA MUN AJX JUV BAY LIL",
        (2, 8, 0),
    ),
    (
        ROUND_OF_16,
        "",
        "LIL LIV MCI MUN AJX JUV BAY RMA",
        (2, 9, 1),
    ),
    // rule 3, and rule 3 before rule 4 of an earlier runner-up
    (
        ROUND_OF_16,
        "",
        "LIL MUN MCI LIV AJX JUV BAY RMA",
        (3, 8, 6),
    ),
    (
        ROUND_OF_16,
        r#"["PSG","RMA"]"#,
        "RMA MUN LIL LIV AJX JUV BAY MCI",
        (3, 15, 0),
    ),
    (TWO_TAGS, "", "AAA", (3, 0, 1)),
    (TWO_TAGS, "", "BBB", (1, 1, 0)),
    // rule 4, the two teams in either order, and its first case
    (ROUND_OF_16, r#"["PSG","RMA"]"#, LEGAL, (4, 8, 3)),
    (ROUND_OF_16, r#"["LIL","CHE"]"#, LEGAL, (4, 15, 6)),
    (
        ROUND_OF_16,
        r#"["CHE","LIL"],["MUN","ATM"]"#,
        LEGAL,
        (4, 9, 5),
    ),
    (
        ROUND_OF_16,
        r#"["CHE","RMA"],["MUN","LIL"]"#,
        LEGAL,
        (0, 0, 0),
    ),
];

/// Texts that are no table.
const NO_TABLES: [&str; 14] = [
    "",
    " ",
    "RMA",
    "RMA MUN MCI LIV AJX JUV BAY",
    "RMA MUN MCI LIV AJX JUV BAY ",
    "RMA MUN MCI LIV AJX JUV BAY LIL ",
    "RMA MUN MCI LIV AJX JUV BAY LIL LIL",
    " RMA MUN MCI LIV AJX JUV BAY LIL",
    "RMA MUN MCI LIV  AJX JUV BAY LIL",
    "RMA MUN MCI LIV,AJX JUV BAY LIL",
    "RMA MUN MCI LIV AJX JUV BAY lil",
    "RMA MUN MCI LIV AJX JUV BAY XYZ",
    "RMA MUN MCI LIV AJX JUV BAY LILL",
    "RMAMUN MCI LIV AJX JUV BAY LIL",
];

/// What is told of a text, where the head has these forbidden pairs too: the verdict on its table, or
/// `None` where it is no table.
fn verdict_on(
    rt: &impl Abort,
    alloc: Global,
    head: &str,
    pairs: &str,
    text: &str,
) -> Result<Option<Verdict>, Fail> {
    let members = head.strip_prefix("{").unwrap_or(head);
    let head = format!(in alloc; "{{\"pairs\":[{pairs}],{members}")?;
    let file = rules_from(alloc, read_head(alloc, head.as_bytes())?)?;
    let table = match read_table(alloc, &file, text.as_bytes()) {
        Ok(table) => table,
        Err(fault) => {
            assert_eq!(rt; fault, TableFault::NotTable, "{text}");
            return Ok(None);
        }
    };
    let copy = table.clone_in(alloc)?;
    let written = table_text(alloc, &file, &copy)?;
    assert!(rt; written.as_slice() == text.as_bytes(), "{text}");
    Ok(Some(judge(&file, &table)))
}

#[test]
fn tables_are_judged(rt: HostRuntime) -> Result<(), Fail> {
    for (head, pairs, text, (rule, first, second)) in TABLES {
        let verdict = if rule == 0 {
            Verdict::Legal
        } else {
            Verdict::Broken {
                rule,
                first,
                second,
            }
        };
        let said = verdict_on(&rt, rt.alloc(), head, pairs, text)?;
        assert_eq!(rt; said, Some(verdict), "{text} {pairs}");
    }
    Ok(())
}

#[test]
fn other_texts_are_no_tables(rt: HostRuntime) -> Result<(), Fail> {
    for text in NO_TABLES {
        let said = verdict_on(&rt, rt.alloc(), ROUND_OF_16, "", text)?;
        assert_eq!(rt; said, None, "{text}");
    }
    Ok(())
}
