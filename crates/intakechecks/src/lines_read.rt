use crate::exports_read::{Case, agree};
use std::test::Fail;

#[test]
fn lines_of_no_digits_are_refused_by_1(rt: HostRuntime) -> Result<(), Fail> {
    agree(
        &rt,
        rt.alloc(),
        &[
            Case("empty", "\n", Err((1, 1))),
            Case("odd", "470\n", Err((1, 1))),
            Case("lower case", "4700000a\n", Err((1, 1))),
            Case("carriage return", "47000000\r\n", Err((1, 1))),
            Case("carriage return, even", "4700000\r\n", Err((1, 1))),
            Case("before 0", "4700000/\n", Err((1, 1))),
            Case("after 9", "4700000:\n", Err((1, 1))),
            Case("before A", "4700000@\n", Err((1, 1))),
            Case("after F", "4700000G\n", Err((1, 1))),
        ],
    )
}

#[test]
fn unknown_frames_are_refused_by_2(rt: HostRuntime) -> Result<(), Fail> {
    agree(
        &rt,
        rt.alloc(),
        &[
            Case("letter Q", "51\n", Err((2, 1))),
            Case("a short G", "470000\n", Err((2, 1))),
            Case("a long G", "4700000000\n", Err((2, 1))),
            Case("an M of 6 bytes", "47000000\n4D0002000000\n", Err((2, 2))),
            Case(
                "an M of 7 bytes has an empty id",
                "47000000\n4D000200000000\n",
                Err((5, 2)),
            ),
            Case("a D before G", "44\n", Err((3, 1))),
            Case("a long D", "4400\n", Err((2, 1))),
        ],
    )
}

#[test]
fn frames_out_of_stage_are_refused_by_3(rt: HostRuntime) -> Result<(), Fail> {
    agree(
        &rt,
        rt.alloc(),
        &[
            Case("M first", "4D00020000000161\n", Err((3, 1))),
            Case("a second G", "47000000\n47000000\n", Err((3, 2))),
            Case("R before M", "47000000\n52010000\n", Err((3, 2))),
            Case(
                "R before M, with a kind that is not given",
                "47000000\n52020000\n",
                Err((3, 2)),
            ),
            Case(
                "S after a call",
                "47000000\n4D00020000000161\n44\n530000\n",
                Err((3, 4)),
            ),
            Case("two calls", "47000000\n4D00020000000161\n44\n44\n", Ok(4)),
        ],
    )
}

#[test]
fn values_not_given_are_refused_by_4(rt: HostRuntime) -> Result<(), Fail> {
    agree(
        &rt,
        rt.alloc(),
        &[
            Case("both flags of G", "47030000\n", Ok(1)),
            Case("an unused flag of G", "47040000\n", Err((4, 1))),
            Case("wrap kind 2", "47000000\n4D00220000000161\n", Ok(2)),
            Case("wrap kind 3", "47000000\n4D00320000000161\n", Err((4, 2))),
            Case(
                "an unused flag",
                "47000000\n4D00420000000161\n",
                Err((4, 2)),
            ),
            Case(
                "the highest flag",
                "47000000\n4D80020000000161\n",
                Err((4, 2)),
            ),
            Case(
                "both kinds of record",
                "47000000\n4D00020000000161\n52010000\n5200FFFF\n",
                Ok(4),
            ),
            Case(
                "record kind 2",
                "47000000\n4D00020000000161\n52020000\n",
                Err((4, 3)),
            ),
            Case(
                "entry kind 2",
                "47000000\n4D00020000000161\n45000002\n",
                Ok(3),
            ),
            Case(
                "entry kind 3",
                "47000000\n4D00020000000161\n45000003\n",
                Err((4, 3)),
            ),
        ],
    )
}

#[test]
fn finished_tables_are_refused_at_the_first_call(rt: HostRuntime) -> Result<(), Fail> {
    agree(
        &rt,
        rt.alloc(),
        &[
            Case("no module", "47000000\n44\n", Err((5, 2))),
            Case(
                "no module comes before a number",
                "47000001\n44\n",
                Err((5, 2)),
            ),
            Case(
                "runtime module 1 of 1",
                "47000001\n4D00020000000161\n44\n",
                Err((6, 3)),
            ),
            Case(
                "listed module 1 of 1",
                "47000000\n4D00020000000161\n530001\n44\n",
                Err((6, 4)),
            ),
            Case(
                "entry on module 1 of 1",
                "47000000\n4D00020000000161\n45000100\n44\n",
                Err((6, 4)),
            ),
            Case(
                "record to module 1 of 1",
                "47000000\n4D00020000000161\n52010001\n44\n",
                Err((6, 4)),
            ),
            Case(
                "FFFF is a number in S",
                "47000000\n4D00020000000161\n53FFFF\n44\n",
                Err((6, 4)),
            ),
            Case(
                "an external runtime",
                "47000000\n4D00030000000161\n44\n",
                Err((7, 3)),
            ),
            Case(
                "6 comes before 7",
                "47000000\n4D00030000000161\n530001\n44\n",
                Err((6, 4)),
            ),
        ],
    )
}

#[test]
fn entries_of_a_module_stand_together(rt: HostRuntime) -> Result<(), Fail> {
    agree(
        &rt,
        rt.alloc(),
        &[
            Case(
                "0 0 1",
                "47000000\n4D00020000000161\n4D00020000000262\n45000000\n45000001\n45000100\n44\n",
                Ok(7),
            ),
            Case(
                "0 1 0",
                "47000000\n4D00020000000161\n4D00020000000262\n45000000\n45000100\n45000000\n44\n",
                Err((8, 7)),
            ),
            Case(
                "7 comes before 8",
                "47000000\n4D00030000000161\n4D00020000000262\n45000000\n45000100\n45000000\n44\n",
                Err((7, 7)),
            ),
        ],
    )
}
