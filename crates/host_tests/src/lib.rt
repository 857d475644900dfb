// Tests of hosts: the listing and the sheet at their limits, and answers as nodes.
#![tactic(auto)]

#[cfg(test)]
mod tests {
    use calculus::answer::Answer;
    use calculus::kind::Kind;
    use calculus::node::Node;
    use hosts::host::Host;
    use hosts::line::Line;
    use hosts::listing::Listing;
    use hosts::reply::put_answer;
    use hosts::sheet::Sheet;
    use hosts::version::Version;

    const VERSION: Version = Version {
        published: 100,
        withdrawn: 0,
        line: 3,
        patch: 7,
    };

    // What a listing of one version answers on a day.
    fn listed(version: Version, today: u16, question: u16, number: u16) -> Option<Answer> {
        let versions = [version];
        let mut listing = Listing::empty();
        let _ = listing.make(&versions, today);
        listing.query(question, number)
    }

    // Whether a listing is made, or the number of the question that refuses it; and the count that it answers then.
    fn counted(versions: &[Version]) -> (Result<(), u8>, Option<Answer>) {
        let mut listing = Listing::empty();
        let made = listing.make(versions, 0);
        (
            made.map_err(|refusal| refusal.report().number),
            listing.query(0, 0),
        )
    }

    #[test]
    fn a_listing_has_at_most_200_versions(rt: HostRuntime) {
        let versions = [VERSION; 201];
        assert_eq!(rt; counted(&[]), (Ok(()), Some(Answer::Number(0))));
        assert_eq!(rt; counted(&versions[..1]), (Ok(()), Some(Answer::Number(1))));
        assert_eq!(rt;
            counted(&versions[..200]),
            (Ok(()), Some(Answer::Number(200)))
        );
        assert_eq!(rt; counted(&versions), (Err(40), Some(Answer::Number(0))));
    }

    #[test]
    fn an_age_is_0_to_255(rt: HostRuntime) {
        for (today, age) in [(99, 0), (100, 0), (101, 1), (355, 255), (356, 255)] {
            assert_eq!(rt;
                listed(VERSION, today, 1, 0),
                Some(Answer::Maybe(Some(age)))
            );
        }
        assert_eq!(rt; listed(VERSION, 100, 1, 1), Some(Answer::Maybe(None)));
    }

    #[test]
    fn a_version_is_withdrawn_from_its_day_on(rt: HostRuntime) {
        for (withdrawn, gone) in [(0, false), (199, true), (200, true), (201, false)] {
            let mut version = VERSION;
            version.withdrawn = withdrawn;
            assert_eq!(rt; listed(version, 200, 2, 0), Some(Answer::Flag(gone)));
        }
        assert_eq!(rt; listed(VERSION, 200, 2, 1), Some(Answer::Flag(true)));
    }

    #[test]
    fn a_question_is_there_and_its_number_at_most_4095(rt: HostRuntime) {
        assert_eq!(rt; listed(VERSION, 100, 3, 0), Some(Answer::Pair(3, 7)));
        assert_eq!(rt; listed(VERSION, 100, 3, 4095), Some(Answer::Pair(0, 0)));
        assert_eq!(rt; listed(VERSION, 100, 3, 4096), None);
        assert_eq!(rt; listed(VERSION, 100, 4, 0), None);
    }

    // A profile with a number, a flag, a maybe and a pair as questions 0 to 3, and a number as question 7.
    const PROFILE: u32 = 0x1000_4321;

    fn line(question: u16, number: u16, a: u16, b: u16) -> Line {
        Line {
            question,
            number,
            a,
            b,
        }
    }

    // Makes a sheet; a refusal is its number and its place.
    fn sheet_of(profile: u32, lines: &[Line]) -> Result<(), (u8, u16)> {
        Sheet::empty().make(profile, lines).map_err(|refusal| {
            let report = refusal.report();
            (report.number, report.place)
        })
    }

    // What a sheet of one line answers.
    fn written(line: Line, question: u16, number: u16) -> Option<Answer> {
        let lines = [line];
        let mut sheet = Sheet::empty();
        let _ = sheet.make(PROFILE, &lines);
        sheet.query(question, number)
    }

    // Makes a sheet of these lines, numbered from 0 on.
    fn numbered(lines: &mut [Line]) -> Result<(), (u8, u16)> {
        for (line, number) in lines.iter_mut().zip(0..=u16::MAX) {
            line.number = number;
        }
        sheet_of(PROFILE, lines)
    }

    #[test]
    fn a_sheet_has_at_most_1024_lines(rt: HostRuntime) {
        let mut most = [line(0, 0, 0, 0); 1024];
        assert_eq!(rt; numbered(&mut most), Ok(()));
        let mut more = [line(0, 0, 0, 0); 1025];
        assert_eq!(rt; numbered(&mut more), Err((41, 0)));
    }

    #[test]
    fn a_digit_is_at_most_4(rt: HostRuntime) {
        assert_eq!(rt; sheet_of(0x4444_4444, &[]), Ok(()));
        assert_eq!(rt; sheet_of(0x5000_0000, &[]), Err((42, 7)));
        assert_eq!(rt; sheet_of(0xf000_0050, &[]), Err((42, 1)));
    }

    #[test]
    fn a_line_is_legal(rt: HostRuntime) {
        assert_eq!(rt; sheet_of(PROFILE, &[line(7, 4095, 255, 0)]), Ok(()));
        assert_eq!(rt; sheet_of(PROFILE, &[line(8, 4095, 255, 0)]), Err((43, 0)));
        assert_eq!(rt; sheet_of(PROFILE, &[line(6, 0, 0, 0)]), Err((43, 0)));
        assert_eq!(rt; sheet_of(PROFILE, &[line(7, 4096, 255, 0)]), Err((43, 0)));
        assert_eq!(rt; sheet_of(PROFILE, &[line(7, 4095, 256, 0)]), Err((43, 0)));
        assert_eq!(rt; sheet_of(PROFILE, &[line(7, 4095, 255, 1)]), Err((43, 0)));
    }

    #[test]
    fn an_answer_in_a_line_has_its_shape(rt: HostRuntime) {
        assert_eq!(rt; sheet_of(PROFILE, &[line(1, 0, 1, 0)]), Ok(()));
        assert_eq!(rt; sheet_of(PROFILE, &[line(1, 0, 2, 0)]), Err((43, 0)));
        assert_eq!(rt; sheet_of(PROFILE, &[line(2, 0, 0, 1)]), Err((43, 0)));
        assert_eq!(rt; sheet_of(PROFILE, &[line(2, 0, 1, 255)]), Ok(()));
        assert_eq!(rt; sheet_of(PROFILE, &[line(2, 0, 1, 256)]), Err((43, 0)));
        assert_eq!(rt; sheet_of(PROFILE, &[line(3, 0, 255, 256)]), Err((43, 0)));
    }

    #[test]
    fn a_line_is_new(rt: HostRuntime) {
        let first = line(0, 1, 2, 0);
        assert_eq!(rt; sheet_of(PROFILE, &[first, line(0, 2, 2, 0)]), Ok(()));
        assert_eq!(rt; sheet_of(PROFILE, &[first, line(7, 1, 2, 0)]), Ok(()));
        assert_eq!(rt;
            sheet_of(PROFILE, &[first, first, line(8, 0, 0, 0)]),
            Err((44, 1))
        );
        assert_eq!(rt;
            sheet_of(PROFILE, &[first, line(0, 1, 256, 0)]),
            Err((43, 1))
        );
    }

    #[test]
    fn a_sheet_answers_by_its_line(rt: HostRuntime) {
        let one = line(2, 5, 1, 9);
        assert_eq!(rt; written(one, 2, 5), Some(Answer::Maybe(Some(9))));
        assert_eq!(rt; written(one, 2, 4), Some(Answer::Maybe(None)));
        assert_eq!(rt; written(one, 0, 5), Some(Answer::Number(0)));
        assert_eq!(rt; written(one, 1, 5), Some(Answer::Flag(false)));
        assert_eq!(rt; written(one, 3, 4095), Some(Answer::Pair(0, 0)));
        assert_eq!(rt; written(one, 3, 4096), None);
        assert_eq!(rt; written(one, 7, 5), Some(Answer::Number(0)));
        assert_eq!(rt; written(one, 8, 5), None);
    }

    #[test]
    fn an_answer_is_written_where_it_fits(rt: HostRuntime) {
        let mut out = [Node::BLANK; 5];
        assert_eq!(rt; put_answer(Answer::Pair(1, 2), &mut out), None);
        assert_eq!(rt; out[0], Node::BLANK);
        assert_eq!(rt; put_answer(Answer::Pair(1, 1), &mut out), Some(5));
        assert_eq!(rt; out[0].kind, Kind::Pair);
    }
}
