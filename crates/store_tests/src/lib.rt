// Tables of calls with what they answer, tried on stores of every kind.
#![tactic(auto)]

#[cfg(test)]
mod cases;

#[cfg(test)]
mod tests {
    use crate::cases::{answers, filled};
    use journal::{Journal, MakeRefusal};
    use pair::Pair;
    use refusal::StoreRefusal;
    use slots::Slots;
    use std::test::Fail;
    use store::{RowKey, SidedStore, Store};

    #[test]
    fn slots_answer(rt: HostRuntime) -> Result<(), Fail> {
        let mut slots = Slots::new(rt.alloc())?;
        assert_eq!(rt; answers(&mut slots), None);
        assert_eq!(rt; filled(&mut slots), Err(StoreRefusal::Full(0)));
        Ok(())
    }

    #[test]
    fn journal_answers(rt: HostRuntime) -> Result<(), Fail> {
        let mut bytes = vec![in rt.alloc(); 0u8; 16832]?;
        let mut journal = Journal::new(rt.alloc(), bytes.as_mut_slice())?;
        assert_eq!(rt; answers(&mut journal), None);
        assert_eq!(rt; filled(&mut journal), Err(StoreRefusal::Full(0)));
        Ok(())
    }

    #[test]
    fn a_journal_wants_its_bytes(rt: HostRuntime) -> Result<(), Fail> {
        let mut bytes = vec![in rt.alloc(); 0u8; 16831]?;
        match Journal::new(rt.alloc(), bytes.as_mut_slice()) {
            Ok(_) => Err(Fail::new("made in too few bytes")),
            Err(why) => {
                assert_eq!(rt; why, MakeRefusal::Size);
                Ok(())
            },
        }
    }

    #[test]
    fn nested_pairs_answer(rt: HostRuntime) -> Result<(), Fail> {
        let mut bytes = vec![in rt.alloc(); 0u8; 16832]?;
        let inner = Pair::new(Slots::new(rt.alloc())?, Slots::new(rt.alloc())?);
        let journal = Journal::new(rt.alloc(), bytes.as_mut_slice())?;
        let mut nested = Pair::new(inner, journal);
        assert_eq!(rt; answers(&mut nested), None);
        assert!(rt; nested.agree());
        assert_eq!(rt; filled(&mut nested), Err(StoreRefusal::Full(1)));
        Ok(())
    }

    #[test]
    fn sides_are_lost_and_rebuilt(rt: HostRuntime) -> Result<(), Fail> {
        let mut bytes = vec![in rt.alloc(); 0u8; 16832]?;
        let inner = Pair::new(Slots::new(rt.alloc())?, Slots::new(rt.alloc())?);
        let journal = Journal::new(rt.alloc(), bytes.as_mut_slice())?;
        let mut nested = Pair::new(inner, journal);
        assert_eq!(rt;
            nested.keep(
                RowKey {
                    cluster: 1,
                    number: 2,
                },
                &[7, 8],
            ),
            Ok(())
        );
        assert_eq!(rt; nested.lose(3), Err(StoreRefusal::NoSide));
        assert_eq!(rt; nested.rebuild(1), Err(StoreRefusal::SideOut));
        assert_eq!(rt; nested.lose(1), Ok(()));
        assert_eq!(rt; nested.lose(2), Err(StoreRefusal::SideOut));
        assert!(rt; !nested.agree());
        assert_eq!(rt; nested.count(), 1);
        assert_eq!(rt; nested.rebuild(1), Ok(()));
        assert!(rt; nested.agree());
        Ok(())
    }
}
