//! Examples of what is in reach, each with its chain.
#![tactic(auto)]

#[cfg(test)]
mod examples {
    use lanes::LaneCall;
    use reach::{Letter, Line, View, in_reach, into_pattern, onto_empty, to_place};
    use std::test::Fail;
    use table::Table;
    use words::{Entry, Exit, Order};

    // Two loops of a message and a block, and a flow that orders the first block to the second loop.
    const HEATS: [u32; 24] = [
        0x1101_0000,
        0x2000_0001,
        0x3000_0000,
        0x4000_0007,
        0x1201_0001,
        0x2000_0000,
        0x3000_0064,
        0x5000_0002,
        0x1102_0002,
        0x2000_0003,
        0x3000_000A,
        0x4000_0009,
        0x1202_0003,
        0x2000_0001,
        0x3000_0032,
        0x1303_0004,
        0x2000_0005,
        0x3000_0000,
        0x6000_0001,
        0x7010_0002,
        0x1203_0005,
        0x2000_0FFF,
        0x3000_0014,
        0xF000_0006,
    ];

    const BLANK: Line = Line::BLANK;

    fn line(place: u16, letter: Letter, first: u16, second: u16) -> Line {
        Line {
            place,
            letter,
            first,
            second,
        }
    }

    fn heats() -> Result<Table, Fail> {
        let mut table = Table::cleared();
        table.load(&HEATS).map_err(|_| Fail::new("refused"))?;
        Ok(table)
    }

    fn start(table: &mut Table, lane: usize, place: u16) -> Result<(), Fail> {
        table
            .lanes
            .call(lane, LaneCall::Start { place, tick: 0 })
            .map_err(|_| Fail::new("not idle"))
    }

    // an order for so many visits waits at block 1, to place 2
    fn order(table: &mut Table, repeats: u8) {
        table.rows[1].plain.entries[0] = Entry::Order(Order {
            repeats,
            lasting: false,
            urgent: false,
            destination: Exit::Place(2),
        });
        table.rows[1].plain.count = 1;
    }

    fn view(table: &Table) -> View {
        View::from(table)
    }

    #[test]
    fn a_lane_at_the_first_loop_stays_there(rt: HostRuntime) -> Result<(), Fail> {
        let mut table = heats()?;
        start(&mut table, 0, 0)?;
        assert!(rt; in_reach(&view(&table), 0));
        assert!(rt; in_reach(&view(&table), 1));
        assert!(rt; !in_reach(&view(&table), 2));
        let mut chain = [BLANK; 512];
        assert_eq!(rt; into_pattern(&view(&table), 2, &mut chain), None);
        assert_eq!(rt; onto_empty(&view(&table), &mut chain), None);
        Ok(())
    }

    #[test]
    fn a_held_lane_counts(rt: HostRuntime) -> Result<(), Fail> {
        let mut table = heats()?;
        start(&mut table, 3, 0)?;
        let _ = table.lanes.call(3, LaneCall::Hold);
        assert!(rt; in_reach(&view(&table), 1));
        Ok(())
    }

    #[test]
    fn an_order_leads_to_the_second_loop(rt: HostRuntime) -> Result<(), Fail> {
        let mut table = heats()?;
        start(&mut table, 0, 0)?;
        order(&mut table, 1);
        let mut chain = [BLANK; 512];
        assert_eq!(rt; to_place(&view(&table), 2, &mut chain), Some(2));
        assert_eq!(rt; chain[0], line(0, Letter::Lane, 0, 0));
        assert_eq!(rt; chain[1], line(1, Letter::Next, 0, 0));
        assert_eq!(rt; chain[2], line(2, Letter::Queue, 1, 0));
        assert_eq!(rt; chain[3], BLANK, "later lines keep what they held");
        Ok(())
    }

    #[test]
    fn an_order_with_no_repeats_leads_nowhere(rt: HostRuntime) -> Result<(), Fail> {
        let mut table = heats()?;
        start(&mut table, 0, 0)?;
        order(&mut table, 0);
        assert!(rt; !in_reach(&view(&table), 2));
        Ok(())
    }

    #[test]
    fn a_flow_and_its_target_lead_to_the_second_loop(rt: HostRuntime) -> Result<(), Fail> {
        let mut table = heats()?;
        start(&mut table, 1, 4)?;
        assert!(rt; !in_reach(&view(&table), 2), "the flow alone does not");
        start(&mut table, 0, 0)?;
        let mut chain = [BLANK; 512];
        assert_eq!(rt; to_place(&view(&table), 2, &mut chain), Some(2));
        assert_eq!(rt; chain[3], line(2, Letter::Flow, 4, 1));
        assert!(rt; into_pattern(&view(&table), 2, &mut chain).is_some());
        Ok(())
    }

    #[test]
    fn an_empty_place_is_told(rt: HostRuntime) -> Result<(), Fail> {
        let mut table = heats()?;
        start(&mut table, 2, 300)?;
        let mut chain = [BLANK; 512];
        assert_eq!(rt; onto_empty(&view(&table), &mut chain), Some(300));
        assert_eq!(rt; chain[0], line(300, Letter::Lane, 2, 0));
        Ok(())
    }
}
