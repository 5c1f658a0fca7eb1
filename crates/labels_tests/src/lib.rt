// Worked values of the label kinds, and each limit just inside and just outside.
#![tactic(auto)]

#[cfg(test)]
mod tests {
    use labels::chain::Chain;
    use labels::check::{check_label, check_user};
    use labels::fault::KindFault;
    use labels::house::House;
    use labels::kind::LabelKind;
    use labels::sets::Sets;
    use std::test::Fail;
    use tables::builder::TableBuilder;
    use tables::table::Table;

    // The number of a refusal, where there is one.
    fn refusal<T: Drop>(outcome: Result<T, KindFault>) -> Option<u32> {
        outcome.err().map(KindFault::number)
    }

    #[test]
    fn chains(rt: HostRuntime) -> Result<(), Fail> {
        assert_eq!(rt; refusal(Chain::new(0)), Some(4));
        assert_eq!(rt; refusal(Chain::new(65_537)), Some(4));
        let one = Chain::new(1)?;
        assert_eq!(rt; one.top(), 0);
        assert!(rt; one.admits(0) && !one.admits(1));
        let k = Chain::new(65_536)?;
        assert_eq!(rt; k.size(), 65_536);
        assert!(rt; k.at_or_below(3, 65_535) && !k.at_or_below(4, 3) && !k.at_or_below(3, 65_536));
        assert_eq!(rt; k.meet(7, 3), 3);
        assert_eq!(rt; k.join(7, 3), 7);
        assert_eq!(rt; k.meet(7, 65_536), 0);
        assert_eq!(rt; k.join(65_536, 7), 0);
        assert_eq!(rt; refusal(check_label(&k, 65_535)), None);
        assert_eq!(rt; refusal(check_label(&k, 65_536)), Some(8));
        Ok(())
    }

    #[test]
    fn sets(rt: HostRuntime) -> Result<(), Fail> {
        assert_eq!(rt; refusal(Sets::new(33)), Some(4));
        let none = Sets::new(0)?;
        assert_eq!(rt; none.size(), 1);
        assert!(rt; none.admits(0) && none.at_or_below(0, 0) && !none.at_or_below(0, 1));
        let all = Sets::new(32)?;
        assert_eq!(rt; all.size(), 4_294_967_296);
        assert_eq!(rt; all.top(), 4_294_967_295);
        assert_eq!(rt; all.meet(4_294_967_295, 0x8000_0001), 0x8000_0001);
        assert_eq!(rt; all.join(0x8000_0000, 1), 0x8000_0001);
        assert!(rt; all.admits(0x8000_0000) && !all.admits(4_294_967_295));
        let two = Sets::new(2)?;
        assert!(rt; two.admits(0) && two.admits(1) && two.admits(2) && !two.admits(3));
        assert_eq!(rt; refusal(check_user(&two, 3)), Some(17));
        assert_eq!(rt; refusal(check_user(&two, 4)), Some(8));
        Ok(())
    }

    #[test]
    fn house(rt: HostRuntime) {
        let k = House::new();
        assert_eq!(rt; k.meet(5, 6), 4);
        assert_eq!(rt; k.join(5, 6), 7);
        assert_eq!(rt; k.meet(5, 12), 0);
        assert_eq!(rt; k.top(), 11);
        assert!(rt; k.at_or_below(5, 7) && !k.at_or_below(5, 6) && !k.at_or_below(0, 12));
        for user in 0..=12 {
            assert_eq!(rt;
                k.admits(user),
                [0, 1, 2, 4, 8].contains(&user),
                "at {user}"
            );
        }
    }

    #[test]
    fn diamond(rt: HostRuntime) -> Result<(), Fail> {
        let pairs = [(0, 1), (0, 2), (0, 3), (1, 4), (2, 4), (3, 4)];
        let k = Table::new(5, &pairs)?;
        assert_eq!(rt; k.size(), 5);
        assert_eq!(rt; k.top(), 4);
        assert_eq!(rt; k.meet(1, 2), 0);
        assert_eq!(rt; k.join(1, 2), 4);
        assert!(rt; k.at_or_below(0, 4) && !k.at_or_below(1, 2) && !k.at_or_below(0, 5));
        for user in 0..=5 {
            assert_eq!(rt; k.admits(user), user == 0, "at {user}");
        }
        Ok(())
    }

    #[test]
    fn table_refusals(rt: HostRuntime) {
        assert_eq!(rt;
            refusal(Table::new(4, &[(0, 2), (0, 3), (1, 2), (1, 3)])),
            Some(6)
        );
        assert_eq!(rt; refusal(Table::new(0, &[(0, 0)])), Some(4));
        assert_eq!(rt; refusal(Table::new(33, &[(0, 33)])), Some(4));
        assert_eq!(rt; refusal(Table::new(2, &[])), Some(6));
        assert_eq!(rt; refusal(Table::new(1, &[])), None);
        assert_eq!(rt; refusal(Table::new(1, &[(0, 0), (0, 0)])), None);
        assert_eq!(rt; refusal(Table::new(2, &[(0, 1), (1, 0), (0, 2)])), Some(5));
        assert_eq!(rt; refusal(Table::new(2, &[(0, 1), (0, 2), (1, 0)])), Some(8));
        assert_eq!(rt; refusal(Table::new(3, &[(0, 1), (1, 2), (2, 0)])), Some(5));
    }

    #[test]
    fn pair_by_pair(rt: HostRuntime) -> Result<(), Fail> {
        let mut b = TableBuilder::new(32)?;
        for a in 1..32 {
            b.add(a - 1, a)?;
        }
        assert_eq!(rt; refusal(b.add(31, 0)), Some(5));
        assert_eq!(rt; refusal(b.add(31, 32)), Some(8));
        assert_eq!(rt; refusal(b.add(7, 7)), None);
        let k = b.finish()?;
        assert!(rt; k.at_or_below(0, 31) && !k.at_or_below(31, 0));
        assert_eq!(rt; k.meet(30, 31), 30);
        assert_eq!(rt; k.join(0, 31), 31);
        assert_eq!(rt; k.top(), 31);
        assert!(rt; k.admits(31) && !k.admits(32));
        Ok(())
    }
}
