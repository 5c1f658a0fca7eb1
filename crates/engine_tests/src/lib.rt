// Small sheets, call by call.
#![tactic(auto)]

#[cfg(test)]
mod tests {
    use engine::Sheet;
    use engine::call::SheetFault;
    use labels::chain::Chain;
    use logics::{El, Links, Record};
    use std::test::Fail;

    // What a call answers, or the number of its refusal.
    fn told<T: Drop>(answer: Result<T, SheetFault>) -> Result<T, u32> {
        answer.map_err(|fault| fault.number())
    }

    // An axiom with two numbers: for el "a lies in b" is of form 1, for links "from a to b" of form 5.
    fn axiom(form: u16, a: u16, b: u16) -> Record {
        Record { form, a, b, c: 0 }
    }

    fn el_sheet() -> Result<Sheet<Chain, El>, Fail> {
        Ok(Sheet::open(Chain::new(6)?, El::new(3, 0)?))
    }

    fn links_sheet() -> Result<Sheet<Chain, Links>, Fail> {
        Ok(Sheet::open(Chain::new(6)?, Links::new(4)?))
    }

    // A goal that follows from nothing has the empty support alone.
    #[test]
    fn empty_support(rt: HostRuntime) -> Result<(), Fail> {
        let mut sheet = el_sheet()?;
        assert_eq!(rt; told(sheet.enter(axiom(1, 1, 2), 0)), Ok(1));
        assert_eq!(rt; told(sheet.enter(axiom(1, 2, 1), 0)), Ok(2));
        let mut places = [7u64; 3];
        let mut area = [7u8; 10];
        assert_eq!(rt; told(sheet.supports((1, 1), &mut places, &mut area)), Ok(1));
        assert_eq!(rt; places, [0, 0, 0]);
        assert_eq!(rt; area, [0, 0, 0, 0, 0, 0, 0, 0, 0, 7]);
        Ok(())
    }

    // An axiom entered twice gives two supports, and one of them is left after a withdrawal.
    #[test]
    fn entered_twice(rt: HostRuntime) -> Result<(), Fail> {
        let mut sheet = el_sheet()?;
        assert_eq!(rt; told(sheet.enter(axiom(1, 1, 2), 0)), Ok(1));
        assert_eq!(rt; told(sheet.enter(axiom(1, 1, 2), 0)), Ok(2));
        let mut places = [7u64; 3];
        let mut area = [7u8; 9];
        assert_eq!(rt; told(sheet.supports((1, 2), &mut places, &mut area)), Ok(2));
        assert_eq!(rt; places, [1, 2, 0]);
        assert_eq!(rt; told(sheet.withdraw(1)), Ok(()));
        assert_eq!(rt; told(sheet.withdraw(1)), Err(12));
        assert_eq!(rt; told(sheet.withdraw(3)), Err(11));
        assert_eq!(rt; told(sheet.supports((1, 2), &mut places, &mut area)), Ok(1));
        assert_eq!(rt; places, [2, 0, 0]);
        Ok(())
    }

    // Two ways from 1 to 3: by axioms 1 and 2, and by axiom 3.
    #[test]
    fn two_ways(rt: HostRuntime) -> Result<(), Fail> {
        let mut sheet = links_sheet()?;
        assert_eq!(rt; told(sheet.enter(axiom(5, 1, 2), 5)), Ok(1));
        assert_eq!(rt; told(sheet.enter(axiom(5, 2, 3), 2)), Ok(2));
        assert_eq!(rt; told(sheet.enter(axiom(5, 1, 3), 3)), Ok(3));
        let mut one = [7u64; 1];
        let mut places = [7u64; 2];
        let mut area = [7u8; 4];
        assert_eq!(rt; told(sheet.supports((1, 3), &mut one, &mut area)), Err(15));
        assert_eq!(rt; one, [0]);
        assert_eq!(rt; told(sheet.boundary((1, 3))), Err(18));
        assert_eq!(rt; told(sheet.publish((1, 3), &mut places, &mut area)), Ok(2));
        assert_eq!(rt; places, [3, 4]);
        assert_eq!(rt; told(sheet.boundary((1, 3))), Ok(Some(3)));
        assert_eq!(rt; told(sheet.row(1)), Err(18));
        assert_eq!(rt; told(sheet.see(6, (1, 3))), Err(8));
        Ok(())
    }
}
