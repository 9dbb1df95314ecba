//! Examples of images, each judged as the rules say.
#![tactic(auto)]

#[cfg(test)]
mod examples {
    use image::{read, write};
    use std::process::Abort;
    use std::test::Fail;
    use words::{Alternatives, Body, Exit, Node, Reason};

    // The words are accepted as an image of so many nodes.
    fn accepted(rt: &impl Abort, words: &[u32], nodes: usize) -> Result<(), Fail> {
        let image = read(words).map_err(|_| Fail::new("refused"))?;
        assert_eq!(rt; image.nodes, nodes);
        Ok(())
    }

    // The words are refused with this number at this position.
    fn refused(
        rt: &impl Abort,
        words: &[u32],
        number: u8,
        position: usize,
        what: &str,
    ) -> Result<(), Fail> {
        match read(words) {
            Ok(_) => Err(Fail::new(format_args!("accepted: {what}"))),
            Err(fault) => {
                assert_eq!(rt; fault.number(), number, "{what}");
                assert_eq!(rt; fault.place(), position, "{what}");
                Ok(())
            }
        }
    }

    #[test]
    fn accepts(rt: HostRuntime) -> Result<(), Fail> {
        accepted(&rt, &[0xF000_0000], 0)?;
        accepted(
            &rt,
            &[
                0x1101_0000,
                0x2000_0001,
                0x3000_0000,
                0x4000_0007,
                0xF000_0001,
            ],
            1,
        )?;
        accepted(
            &rt,
            &[0x1201_01FF, 0x2000_0FFF, 0x3000_0001, 0xF000_0001],
            1,
        )?;
        accepted(
            &rt,
            &[
                0x1201_0001,
                0x2000_0000,
                0x3FFF_FFFF,
                0x5000_0FFF,
                0x5000_0001,
                0x5000_01FF,
                0xF000_0001,
            ],
            1,
        )?;
        accepted(
            &rt,
            &[
                0x13FF_0004,
                0x2000_0005,
                0x3000_0000,
                0x6000_0001,
                0x7FFC_0FFF,
                0xF000_0001,
            ],
            1,
        )
    }

    #[test]
    fn refuses_ragged_images(rt: HostRuntime) -> Result<(), Fail> {
        refused(&rt, &[], 6, 0, "no word at all")?;
        refused(&rt, &[0x1101_0000], 6, 1, "only a head")?;
        refused(
            &rt,
            &[0x1101_0000, 0x2000_0001, 0x3000_0000],
            6,
            3,
            "no event",
        )?;
        refused(
            &rt,
            &[0x1301_0000, 0x2000_0001, 0x3000_0000, 0x6000_0001],
            6,
            4,
            "no order",
        )?;
        refused(
            &rt,
            &[0x1201_0000, 0x2000_0001, 0x3000_0001],
            6,
            3,
            "no end word",
        )?;
        refused(&rt, &[0xF000_0001], 6, 0, "counts a node that is not there")?;
        refused(
            &rt,
            &[
                0x1201_0000,
                0x2000_0001,
                0x3000_0001,
                0xF000_0000,
                0xF000_0001,
            ],
            6,
            3,
            "wrong count before another word",
        )?;
        refused(
            &rt,
            &[0xF000_0000, 0xF000_0000],
            6,
            1,
            "an end word after the end word",
        )?;
        refused(
            &rt,
            &[0xF000_0000, 0],
            6,
            1,
            "a word of no kind after the end word",
        )
    }

    #[test]
    fn refuses_falling_places(rt: HostRuntime) -> Result<(), Fail> {
        refused(
            &rt,
            &[0x1201_0001, 0x2000_0001, 0x3000_0001, 0x1201_0001],
            5,
            3,
            "the same place",
        )?;
        refused(
            &rt,
            &[0x1201_0001, 0x2000_0001, 0x3000_0001, 0x1101_0000],
            5,
            3,
            "a place below",
        )?;
        refused(
            &rt,
            &[
                0x1201_01FF,
                0x2000_0001,
                0x3000_0001,
                0x5000_0002,
                0x1101_0000,
            ],
            5,
            4,
            "after an alternative",
        )?;
        refused(
            &rt,
            &[0x1201_0001, 0x2000_0001, 0x3000_0001, 0x1201_1000],
            4,
            3,
            "a head that is no word is 4 first",
        )?;
        refused(
            &rt,
            &[0x1101_0001, 0x1101_0000],
            4,
            1,
            "a head where a next is wanted is 4",
        )
    }

    #[test]
    fn refuses_bad_words(rt: HostRuntime) -> Result<(), Fail> {
        refused(&rt, &[0], 4, 0, "no kind")?;
        refused(&rt, &[0x1001_0000], 4, 0, "no type")?;
        refused(&rt, &[0x1401_0000], 4, 0, "a type too large")?;
        refused(&rt, &[0x1101_0200], 4, 0, "a place too large")?;
        refused(&rt, &[0x1101_1000], 4, 0, "a bit that is not named")?;
        refused(
            &rt,
            &[0xF000_1000],
            4,
            0,
            "a bit of the end word that is not named",
        )?;
        refused(&rt, &[0x8010_0000], 4, 0, "a pass stands in no image")?;
        refused(
            &rt,
            &[0x1101_0000, 0x2000_0FFF],
            4,
            1,
            "the next of a message is no end",
        )?;
        refused(
            &rt,
            &[0x1101_0000, 0x2000_0200, 0x3000_0000],
            4,
            1,
            "a next too large",
        )?;
        refused(
            &rt,
            &[0x1201_0000, 0x2000_0001, 0x3000_0000],
            4,
            2,
            "a period of 0",
        )?;
        refused(
            &rt,
            &[0x1101_0000, 0x2000_0001, 0x3000_0000, 0x5000_0000],
            4,
            3,
            "no event",
        )
    }

    #[test]
    fn refuses_bad_words_of_blocks_and_flows(rt: HostRuntime) -> Result<(), Fail> {
        refused(
            &rt,
            &[0x1201_0000, 0x2000_0001, 0x3000_0001, 0x5000_0001],
            4,
            3,
            "an alternative that is the next",
        )?;
        refused(
            &rt,
            &[
                0x1201_0000,
                0x2000_0001,
                0x3000_0001,
                0x5000_0002,
                0x5000_0002,
            ],
            4,
            4,
            "an alternative twice",
        )?;
        refused(
            &rt,
            &[
                0x1201_0000,
                0x2000_0001,
                0x3000_0001,
                0x5000_0002,
                0x5000_0003,
                0x5000_0002,
            ],
            4,
            5,
            "the first again",
        )?;
        refused(
            &rt,
            &[
                0x1201_0000,
                0x2000_0001,
                0x3000_0001,
                0x5000_0002,
                0x5000_0003,
                0x5000_0003,
            ],
            4,
            5,
            "the second again",
        )?;
        refused(
            &rt,
            &[
                0x1201_0000,
                0x2000_0001,
                0x3000_0001,
                0x5000_0002,
                0x5000_0003,
                0x5000_0004,
                0x5000_0005,
            ],
            4,
            6,
            "a fourth",
        )?;
        refused(
            &rt,
            &[0x1301_0000, 0x2000_0001, 0x3000_0000, 0x6000_0FFF],
            4,
            3,
            "a target is no end",
        )?;
        refused(
            &rt,
            &[
                0x1301_0000,
                0x2000_0001,
                0x3000_0000,
                0x6000_0001,
                0x7000_0002,
            ],
            4,
            4,
            "repeats of 0",
        )?;
        refused(
            &rt,
            &[
                0x1301_0000,
                0x2000_0001,
                0x3000_0000,
                0x6000_0001,
                0x7012_0002,
            ],
            4,
            4,
            "a bit of an order that is not named",
        )?;
        refused(
            &rt,
            &[
                0x1301_0000,
                0x2000_0001,
                0x3000_0000,
                0x6000_0001,
                0x8010_0000,
            ],
            4,
            4,
            "a pass is no order",
        )
    }

    // A block with as many words as a node can have.
    const LONG: Node = Node {
        pattern: 1,
        body: Body::Block {
            next: Exit::Place(0),
            period: 1,
            alternatives: Alternatives::Three(Exit::Place(1), Exit::Place(2), Exit::End),
        },
    };

    #[test]
    fn writes_the_longest_image(rt: HostRuntime) -> Result<(), Fail> {
        let places = [Some(LONG); 512];
        let mut words = [7; 3080];
        match write(&places, &mut words) {
            Ok(count) => assert_eq!(rt; count, 3073),
            Err(_) => return Err(Fail::new("too short")),
        }
        assert_eq!(rt; words[0], 0x1201_0000);
        assert_eq!(rt; words[3066], 0x1201_01FF);
        assert_eq!(rt; words[3072], 0xF000_0200);
        for word in &words[3073..] {
            assert_eq!(rt; *word, 7, "a word past the image");
        }
        accepted(&rt, &words[0..3073], 512)?;
        refused(&rt, &words[0..3072], 6, 3072, "without the end word")
    }

    #[test]
    fn writes_nothing_into_too_few_words(rt: HostRuntime) -> Result<(), Fail> {
        let mut places = [None; 512];
        places[511] = Some(LONG);
        let mut words = [7; 6];
        match write(&places, &mut words) {
            Ok(_) => return Err(Fail::new("written")),
            Err(short) => assert_eq!(rt; short.needed, 7),
        }
        for word in &words {
            assert_eq!(rt; *word, 7);
        }
        Ok(())
    }
}
