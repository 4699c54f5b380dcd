// Rows written as SQL, and what the keeper reads of them.
use crate::asking::{drivers, owed, receipt};
use crate::stores::{OLDER, TODAY, opened};
use desk_keeper::KeeperError;
use minute_line::read_monday;
use std::test::Fail;

// 20514 is 2026-03-02, a Monday. Of each store: its rows; what D1 owes, the drivers of the draft, the receipt; the faults.
#[test]
fn a_value_out_of_its_range_is_a_fault(rt: HostRuntime) -> Result<(), Fail> {
    let alloc = rt.alloc();
    let monday = read_monday("2026-03-02").ok_or("a Monday")?;
    let fault = Err(KeeperError::Fault);
    let rows = [
        ("", Ok(-1), Ok(-1), Ok(-1), 0),
        (
            "INSERT INTO histories VALUES ('D1', 20514, '1500 0 0,0,0,0,0,0,0,0,0,0,0,0,0,0,0,0 0 - 1200 3')",
            Ok(1200),
            Ok(-1),
            Ok(-1),
            0,
        ),
        (
            "INSERT INTO histories VALUES ('D1', 20514, '1500 0 0,0,0,0,0,0,0,0,0,0,0,0,0,0,0,0 0 -')",
            fault,
            Ok(-1),
            Ok(-1),
            1,
        ),
        (
            "INSERT INTO histories VALUES ('D1', 20515, '1500 0 0,0,0,0,0,0,0,0,0,0,0,0,0,0,0,0 0 - 1200 3')",
            fault,
            Ok(-1),
            Ok(-1),
            1,
        ),
        (
            "INSERT INTO drafts VALUES (20514, 0, x'', x'')",
            Ok(-1),
            fault,
            Ok(-1),
            1,
        ),
        (
            "INSERT INTO drafts VALUES (20514, 1, x'', x'')",
            Ok(-1),
            Ok(0),
            Ok(-1),
            0,
        ),
        (
            "INSERT INTO drafts VALUES (20514, 1000000, x'', x'');
             INSERT INTO draft_drivers VALUES (20514, 0, 'D1', 20514, '1500 0 0,0,0,0,0,0,0,0,0,0,0,0,0,0,0,0 0 - 1200 3', '1500 0 0,0,0,0,0,0,0,0,0,0,0,0,0,0,0,0 0 - 1200 3')",
            Ok(-1),
            Ok(1),
            Ok(-1),
            0,
        ),
        (
            "INSERT INTO drafts VALUES (20514, 1, x'', x'');
             INSERT INTO draft_drivers VALUES (20514, 0, 'D1', 20515, '1500 0 0,0,0,0,0,0,0,0,0,0,0,0,0,0,0,0 0 - 1200 3', '1500 0 0,0,0,0,0,0,0,0,0,0,0,0,0,0,0,0 0 - 1200 3')",
            Ok(-1),
            fault,
            Ok(-1),
            1,
        ),
        (
            "INSERT INTO drafts VALUES (20514, 1, x'', x'');
             INSERT INTO draft_drivers VALUES (20514, 0, 'D1', 20514, '-', '1500 0 0,0,0,0,0,0,0,0,0,0,0,0,0,0,0,0 0 - 1200 3')",
            Ok(-1),
            fault,
            Ok(-1),
            1,
        ),
        (
            "INSERT INTO drafts VALUES (20514, 1, x'', x'');
             INSERT INTO draft_drivers VALUES (20514, 0, 'D1', NULL, NULL, '-')",
            Ok(-1),
            fault,
            Ok(-1),
            1,
        ),
        (
            "INSERT INTO drafts VALUES (20514, 1000001, x'', x'')",
            Ok(-1),
            fault,
            Ok(-1),
            1,
        ),
        (
            "INSERT INTO issues VALUES (0, 20514, 1, x'', x'')",
            Ok(-1),
            Ok(-1),
            fault,
            1,
        ),
        (
            "INSERT INTO issues VALUES (7, 20514, 1, x'', x'')",
            Ok(-1),
            Ok(-1),
            Ok(7),
            0,
        ),
    ];
    for (row, owes, drafted, issued, faults) in rows {
        let mut keeper = opened(alloc, &[OLDER, TODAY, row]).ok().ok_or("opened")?;
        assert_eq!(rt; owed(&mut keeper, alloc), owes, "{row}");
        assert_eq!(rt; drivers(&mut keeper, alloc, monday), drafted, "{row}");
        assert_eq!(rt; receipt(&mut keeper, alloc, monday), issued, "{row}");
        assert_eq!(rt; keeper.faults(), faults, "{row}");
        // a row that stands as it was refuses another with its key
        let again = keeper.into_connection().execute_batch(row);
        assert_eq!(rt; again.is_err(), !row.is_empty(), "{row}");
    }
    Ok(())
}
