// What no other crate does with a public function: a caller may say why by a number, whether a refusal has it or not.
use crate::answer::{AnswerBy, number_of};
use crate::apart::{ToldBy, core_of, stop};
use crate::moves::refused;
use crate::opening::open;

#[test]
fn any_number_says_why(rt: HostRuntime) {
    let st = open(&[], &mut [], &mut []).state;
    for why in [0_u32, 14, 28, 0xFFFF_FFFF] {
        assert!(rt; matches!(stop(core_of(st), why).told, ToldBy::Not(told) if told == why));
        let answer = refused(st, why).answer;
        assert!(rt; matches!(answer, AnswerBy::Refused(told) if told == why));
        assert_eq!(rt; number_of(answer), why);
    }
}
