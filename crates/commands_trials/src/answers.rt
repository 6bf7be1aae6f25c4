//! The lines that answer commands.

use commands::Answer;
use refusals::Refusal;
use std::test::Fail;
use survey::SurveyFault;

#[test]
fn answers_are_written(rt: HostRuntime) -> Result<(), Fail> {
    let refusal = Refusal::OffSite { station: 8 };
    let cases = [
        (Answer::of(Ok(())), "ok"),
        (Answer::of(Err(refusal)), "refused 2 place 8"),
        (
            Answer::SurveyRefused(SurveyFault::TooLong),
            "refused 14 place 0 layer 2 line 0 byte 0",
        ),
        (Answer::Numbers(&[2, 0]), "numbers: 2 0"),
        (Answer::Sheet(&[8, 171]), "sheet 08ab"),
        (Answer::Cards(&[]), "cards -"),
        (Answer::Chosen(3), "chosen 3"),
        (Answer::BookSheet(Ok(())), "book's sheet: passed"),
        (Answer::Offered(Err(refusal)), "offered: refused 2 place 8"),
    ];
    for (answer, line) in cases {
        assert_eq!(rt; format!(in rt.alloc(); "{answer}")?.as_str(), line);
    }
    Ok(())
}

#[test]
fn tables_and_levels_are_written(rt: HostRuntime) -> Result<(), Fail> {
    let tables = Answer::Tables {
        numbers: &[1, 1],
        homes: &[0, 0],
        ups: &[65_535, 65_535],
        order: &[1, 0],
    };
    let line = "tables 2: 1 1 / 0 0 / 65535 65535 / 1 0";
    assert_eq!(rt; format!(in rt.alloc(); "{tables}")?.as_str(), line);
    let levels = Answer::ChosenByBoth {
        book: Ok(3),
        view: Err(Refusal::CountOutOfRange),
    };
    let line = "chosen by book 3, by view refused 1 place 0";
    assert_eq!(rt; format!(in rt.alloc(); "{levels}")?.as_str(), line);
    Ok(())
}
