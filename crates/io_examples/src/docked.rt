//! An exchange, its refusal and its end.
use pol_exchange::{Docked, WrongTicket};
use std::test::Fail;

#[test]
fn a_wrong_ticket_hands_all_back_and_the_right_one_exchanges(rt: HostRuntime) -> Result<(), Fail> {
    let away = Docked::new(7).begin(3);
    assert_eq!(rt; away.ticket(), 3);
    match away.finish(4, 8) {
        Ok(_) => assert!(rt; false, "ticket 4 was accepted"),
        Err((away, part, refusal)) => {
            assert_eq!(rt; part, 8);
            assert_eq!(rt; refusal, WrongTicket { kept: 3, given: 4 });
            match away.finish(3, part) {
                Ok((docked, old)) => {
                    assert_eq!(rt; *docked.part(), 8);
                    assert_eq!(rt; old, 7);
                }
                Err(_) => assert!(rt; false, "ticket 3 was refused"),
            }
        }
    }
    Ok(())
}

#[test]
fn a_cancelled_exchange_docks_the_old_part(rt: HostRuntime) -> Result<(), Fail> {
    match Docked::new(7).begin(3).cancel(3) {
        Ok(mut docked) => {
            assert_eq!(rt; *docked.part(), 7);
            *docked.part_mut() += 1;
            assert_eq!(rt; *docked.part(), 8);
        }
        Err(_) => assert!(rt; false, "ticket 3 was refused"),
    }
    Ok(())
}
