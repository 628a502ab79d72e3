// The worked example, one tip and one cable: as one theorem on the definitions, and as tests.
#![tactic(auto)]

mod examples;

pub use examples::berm_file;

#[cfg(test)]
mod tests {
    use super::berm_file;
    use books::{HalfScores, StoredBook, WordsRefusal};
    use calls::{Call, CallRefusal, Decided, Exchange};
    use clause_store::OpenError;
    use commands::text;
    use computed::ComputedBook;
    use netfile::ReadError;
    use network::Network;
    use session_commands::text as session_text;
    use std::test::*;
    use theory::{Encoding, Side};

    // The points of the worked file.
    const POINTS: [u8; 24] = [
        1, 1, 2, 1, 2, 3, 84, 73, 80, 32, 32, 32, 32, 32, 2, 2, 67, 65, 66, 76, 69, 32, 32, 32,
    ];

    // Its table with its pairs, and its end.
    const TABLE: [u8; 12] = [3, 0, 1, 4, 0, 0, 4, 1, 1, 5, 0, 2];

    // The number and the place with which a file is refused, if it is.
    fn refusal(rt: &HostRuntime, front: &[u8], back: &[u8]) -> Result<Option<(u8, usize)>, Fail> {
        let mut file = front.to_vec(rt.alloc())?;
        file.extend_from_slice(back)?;
        match netfile::read(rt.alloc(), &file) {
            Ok(_) => Ok(None),
            Err(ReadError::Refused(f)) => Ok(Some((f.refusal.number(), f.place))),
            Err(ReadError::OutOfMemory) => Err(Fail::new("out of memory")),
        }
    }

    #[test]
    fn accepted_and_refused(rt: HostRuntime) -> Result<(), Fail> {
        assert_eq!(rt; refusal(&rt, &POINTS, &TABLE)?, None);
        assert_eq!(rt; refusal(&rt, &POINTS[0..14], &TABLE)?, Some((6, 14)));
        assert_eq!(rt; refusal(&rt, &POINTS, &[3, 0, 2])?, Some((7, 24)));
        assert_eq!(rt;
            refusal(&rt, &POINTS, &[3, 0, 1, 4, 0, 0, 4, 0, 0])?,
            Some((9, 30))
        );
        assert_eq!(rt;
            refusal(&rt, &POINTS, &[3, 0, 1, 5, 0, 0, 0])?,
            Some((11, 30))
        );
        assert_eq!(rt; refusal(&rt, &POINTS, &[9])?, Some((2, 24)));
        assert_eq!(rt; refusal(&rt, &POINTS, &[3, 0])?, Some((1, 26)));
        Ok(())
    }

    #[test]
    fn a_refused_file_leaves_the_network(rt: HostRuntime) -> Result<(), Fail> {
        let mut network = Network::start(rt.alloc())?;
        assert!(rt; netfile::load(rt.alloc(), &mut network, &POINTS).is_err());
        assert_eq!(rt; network.points().len(), 1);
        assert_eq!(rt; network.points().label(0), Some([32; 8]));
        let mut file = POINTS.to_vec(rt.alloc())?;
        file.extend_from_slice(&TABLE)?;
        assert!(rt; netfile::load(rt.alloc(), &mut network, &file).is_ok());
        assert_eq!(rt; network.points().total(), 5);
        assert_eq!(rt; network.points().number(1, 1), Some(4));
        assert_eq!(rt; network.points().place(4), Some((1, 1)));
        assert_eq!(rt; network.points().place(5), None);
        let clauses = encodings::encode(rt.alloc(), &network, Encoding::MinimalSupport)?;
        assert_eq!(rt; clauses.len(), 9);
        Ok(())
    }

    // The network of the worked file.
    fn worked(rt: &HostRuntime) -> Result<Network, Fail> {
        let mut network = Network::start(rt.alloc())?;
        if netfile::load(rt.alloc(), &mut network, &berm_file()).is_err() {
            return Err(Fail::new("the worked file is refused"));
        }
        Ok(network)
    }

    #[test]
    fn words_of_the_encodings(rt: HostRuntime) -> Result<(), Fail> {
        let mut file = POINTS.to_vec(rt.alloc())?;
        file.extend_from_slice(&TABLE)?;
        let mut network = Network::start(rt.alloc())?;
        assert!(rt; netfile::load(rt.alloc(), &mut network, &file).is_ok());
        let mut few = [7; 33];
        assert_eq!(rt;
            writers::write(&network, Encoding::Support, &mut few),
            Err(WordsRefusal::TooFewWords(34))
        );
        assert_eq!(rt; few, [7; 33]);
        let mut out = [7; 36];
        assert_eq!(rt;
            writers::write(&network, Encoding::Support, &mut out),
            Ok(34)
        );
        assert_eq!(rt;
            out[0..13].to_vec(rt.alloc())?,
            [11, 15, 17, 19, 21, 23, 25, 27, 29, 30, 32, 34, 0].to_vec(rt.alloc())?
        );
        assert_eq!(rt; out[34], 7);
        assert_eq!(rt;
            writers::write(&network, Encoding::Direct, &mut out),
            Ok(32)
        );
        assert_eq!(rt;
            writers::write(&network, Encoding::MinimalSupport, &mut out),
            Ok(28)
        );
        Ok(())
    }

    // How many words two halves take, or the refusal's number, as a program prints it.
    fn halves(
        network: &Network,
        table: usize,
        low: &mut [u32],
        high: &mut [u32],
    ) -> Result<(usize, usize), u8> {
        writers::write_halves(network, table, low, high).map_err(|refusal| refusal.number())
    }

    #[test]
    fn halves_of_the_table(rt: HostRuntime) -> Result<(), Fail> {
        let network = worked(&rt)?;
        let mut low = [7; 10];
        let mut high = [7; 8];
        assert_eq!(rt; halves(&network, 1, &mut low, &mut high), Err(12));
        let mut few = [7; 8];
        assert_eq!(rt; halves(&network, 0, &mut few, &mut high), Err(18));
        let mut fewer = [7; 6];
        assert_eq!(rt; halves(&network, 0, &mut low, &mut fewer), Err(18));
        assert_eq!(rt; low, [7; 10]);
        assert_eq!(rt; high, [7; 8]);
        assert_eq!(rt; halves(&network, 0, &mut low, &mut high), Ok((9, 7)));
        assert_eq!(rt; low, [3, 6, 8, 9, 1, 6, 3, 8, 5, 7]);
        assert_eq!(rt; high, [2, 5, 7, 7, 0, 9, 2, 7]);
        match books::better(&low, &high) {
            Ok(half) => assert_eq!(rt; half.words.len(), 9),
            Err(_) => return Err(Fail::new("no stored book")),
        }
        assert!(rt; books::better(&low, &[]).is_err());
        match computed::half_scores(&network, 0) {
            Ok(scores) => {
                assert_eq!(rt; (scores.lower, scores.higher), (24, 8));
                Ok(())
            },
            Err(_) => Err(Fail::new("no such table")),
        }
    }

    // The page after calls over the worked network's clauses.
    fn page_after(rt: &HostRuntime, encoding: Encoding, calls: &[Call]) -> Result<Vec<u8>, Fail> {
        let network = worked(rt)?;
        let mut session = opening::open_network(rt.alloc(), &network, encoding)?;
        for call in calls {
            let _ = session.perform(*call);
        }
        Ok(page::page(rt.alloc(), &session)?)
    }

    #[test]
    fn a_list_and_its_book_have_one_text(rt: HostRuntime) -> Result<(), Fail> {
        let network = worked(&rt)?;
        let lists = encodings::encode(rt.alloc(), &network, Encoding::Direct)?;
        let book = ComputedBook::new(&network, Encoding::Direct);
        assert_eq!(rt;
            text::clauses(rt.alloc(), &lists.as_slice())?,
            text::clauses(rt.alloc(), &book)?
        );
        Ok(())
    }

    #[test]
    fn the_parts_of_a_list_make_the_list(rt: HostRuntime) -> Result<(), Fail> {
        let heap = rt.alloc();
        let network = worked(&rt)?;
        let all = encodings::encode(heap, &network, Encoding::Support)?;
        let mut lists = encodings::of_points(heap, network.points())?;
        for table in network.tables() {
            encodings::of_table(heap, network.points(), table, Encoding::Support, &mut lists)?;
        }
        assert_eq!(rt;
            text::clauses(heap, &lists.as_slice())?,
            text::clauses(heap, &all.as_slice())?
        );
        Ok(())
    }

    #[test]
    fn texts_of_any_number(rt: HostRuntime) -> Result<(), Fail> {
        let heap = rt.alloc();
        let scores = HalfScores {
            better: Side::Lower,
            lower: 24,
            higher: 8,
        };
        assert_eq!(rt; text::refused(heap, 255, 18)?.as_str(), "refused 255 at 18");
        assert_eq!(rt;
            session_text::refused_call(heap, 255)?.as_str(),
            "refused 255"
        );
        assert_eq!(rt; session_text::half(heap, scores)?.as_str(), "lower 24 8");
        Ok(())
    }

    #[test]
    fn pages(rt: HostRuntime) -> Result<(), Fail> {
        let heap = rt.alloc();
        assert_eq!(rt;
            page_after(&rt, Encoding::Support, &[])?,
            b"TIP      ..-\nCABLE    ..\n".to_vec(heap)?
        );
        assert_eq!(rt;
            page_after(&rt, Encoding::Support, &[Call::Choose(0, 0)])?,
            b"TIP      +--\nCABLE    +-\n".to_vec(heap)?
        );
        assert_eq!(rt;
            page_after(&rt, Encoding::Support, &[Call::Bar(1, 0)])?,
            b"TIP      -+-\nCABLE    -+\n".to_vec(heap)?
        );
        assert_eq!(rt;
            page_after(&rt, Encoding::Direct, &[Call::Choose(0, 2)])?,
            b"clash\n".to_vec(heap)?
        );
        assert_eq!(rt;
            page_after(&rt, Encoding::Direct, &[Call::Choose(0, 2), Call::Withdraw])?,
            b"TIP      ...\nCABLE    ..\n".to_vec(heap)?
        );
        Ok(())
    }

    #[test]
    fn answers_over_support(rt: HostRuntime) -> Result<(), Fail> {
        let network = worked(&rt)?;
        let book = ComputedBook::new(&network, Encoding::Support);
        let calls = [
            Call::Choose(0, 0),
            Call::Choose(0, 2),
            Call::Value(0),
            Call::Bar(2, 0),
        ];
        let Ok(log) = runs::play_all(rt.alloc(), network.points(), &book, &calls) else {
            return Err(Fail::new("not opened"));
        };
        assert_eq!(rt;
            log.as_slice(),
            [
                Exchange::Choose(0, 0, Ok(Decided::Taken)),
                Exchange::Choose(0, 2, Err(CallRefusal::MarkedOut)),
                Exchange::Value(0, Ok(Some(0))),
                Exchange::Bar(2, 0, Err(CallRefusal::NoSuch)),
            ]
            .as_slice()
        );
        Ok(())
    }

    #[test]
    fn a_book_that_is_not_fit(rt: HostRuntime) -> Result<(), Fail> {
        let network = worked(&rt)?;
        let mut session = opening::open_network(rt.alloc(), &network, Encoding::Support)?;
        assert_eq!(rt; session.choose(0, 0), Ok(Decided::Taken));
        for words in [[1, 3, 9], [1, 3, 10], [1, 2, 0]] {
            let Ok(book) = StoredBook::new(&words) else {
                return Err(Fail::new("no stored book"));
            };
            let opened = session.open(rt.alloc(), network.points(), &book);
            if words[2] == 9 {
                assert!(rt; opened.is_ok());
                assert_eq!(rt; session.decisions(), 0);
                assert_eq!(rt; session.choose(0, 0), Ok(Decided::Taken));
            } else {
                assert_eq!(rt; opened, Err(OpenError::Unfit));
                assert_eq!(rt; session.decisions(), 1);
            }
        }
        Ok(())
    }
}
