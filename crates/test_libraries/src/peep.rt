// What is live at each place, and rules of a caller's own.
use std::test::Fail;
use uc_asm::{assemble, print};
use uc_isa::{Dst, Instr, RegA, RegB, RegS, Src, lint};
use uc_peep::{LiveSet, Pair, Shorter, WindowRule, live, peep};

#[test]
fn what_a_path_reads_is_live(rt: HostRuntime) -> Result<(), Fail> {
    let code = assemble(
        rt.alloc(),
        b"params 1\nalu S2 SUB A0 B3\nbr NC @3\nhalt 1 2\nwrite scratch 2 1 B15 4\nhalt 0 0\n",
    )?;
    if let Some(_) = lint(&code) {
        assert!(rt; false);
        return Ok(());
    }
    let sets = live(rt.alloc(), &code)?;
    assert_eq!(rt; sets.len(), 5);
    for set in &sets[..1] {
        assert!(rt;
            set.has_src(Src::A(RegA { number: 0 })) && set.has_src(Src::B(RegB { number: 3 }))
        );
        assert!(rt; !set.has_dst(Dst::S(RegS { number: 2 })));
        assert_eq!(rt; set.flags(), (false, false));
    }
    for set in &sets[1..2] {
        assert!(rt;
            set.has_dst(Dst::S(RegS { number: 2 })) && set.has_dst(Dst::B(RegB { number: 15 }))
        );
        assert!(rt;
            set.has_dst(Dst::A(RegA { number: 1 })) && !set.has_dst(Dst::A(RegA { number: 2 }))
        );
        assert!(rt; !set.has_dst(Dst::Nowhere));
        assert_eq!(rt; set.flags(), (false, true));
    }
    Ok(())
}

#[test]
fn rules_without_an_answer_change_nothing(rt: HostRuntime) -> Result<(), Fail> {
    let text = b"params 1\nimmed A1 1 0\nhalt 0 1\n";
    let code = assemble(rt.alloc(), text)?;
    if let Some(_) = lint(&code) {
        assert!(rt; false);
        return Ok(());
    }
    let first = WindowRule::new(|_w: &[Instr], _after: &LiveSet| -> Option<Shorter> { None });
    let second = WindowRule::new(|_w: &[Instr], _after: &LiveSet| -> Option<Shorter> { None });
    let rules = Pair { first, second };
    let q = peep(rt.alloc(), code, Vec::new(rt.alloc()), &rules)?;
    let listing = print(rt.alloc(), &q.code)?;
    assert_eq!(rt; listing.as_slice(), text.as_slice());
    Ok(())
}
