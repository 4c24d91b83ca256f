// Books filled to the brim, and numbers going round.
use book::{Audience, Book, Change, Envelope, RuleRefusal};
use std::test::Fail;
use words::{Member, ModuleId, Rule, RuleKind};

fn member(number: u8, port: u8) -> Member {
    Member {
        number,
        role: 5,
        port,
    }
}

fn rule(number: u8, subject: u16) -> Rule {
    Rule {
        kind: RuleKind::Subscription,
        number,
        role: 0,
        subject,
    }
}

// A message on subject 7 that number 2 of role 9 sends.
fn on_seven(audience: Audience) -> Envelope {
    Envelope {
        audience,
        sender: ModuleId { number: 2, role: 9 },
        subject: 7,
    }
}

#[test]
fn fifteen_members_and_two_hundred_rules_fill_a_book(rt: HostRuntime) -> Result<(), Fail> {
    let mut book = Book::new(rt.alloc())?;
    for port in 1..16u8 {
        assert!(rt; book.add_member(member(port, port)));
    }
    assert!(rt; !book.add_member(member(16, 16)));
    for subject in 1..201u16 {
        assert_eq!(rt; book.add_rule(rule(1, subject)), Ok(()));
    }
    assert_eq!(rt; book.add_rule(rule(1, 201)), Err(RuleRefusal::Full));
    assert_eq!(rt; book.add_rule(rule(1, 7)), Err(RuleRefusal::Standing));
    assert_eq!(rt; book.add_rule(rule(99, 7)), Err(RuleRefusal::Invalid));
    assert_eq!(rt; book.members().len(), 15);
    assert_eq!(rt; book.rules().len(), 200);
    Ok(())
}

#[test]
fn a_member_that_takes_a_seat_drives_out_two(rt: HostRuntime) -> Result<(), Fail> {
    let mut book = Book::new(rt.alloc())?;
    assert!(rt; book.add_member(member(1, 4)));
    assert!(rt; book.add_member(member(2, 5)));
    assert!(rt; book.add_member(member(3, 6)));
    assert_eq!(rt; book.add_rule(rule(1, 7)), Ok(()));
    assert_eq!(rt; book.add_rule(rule(2, 7)), Ok(()));
    assert_eq!(rt; book.add_rule(rule(3, 7)), Ok(()));
    assert!(rt; book.apply(Change::Starting(member(1, 5))));
    assert_eq!(rt; book.members().len(), 2);
    assert_eq!(rt; book.rules().len(), 1, "only the rule of number 3 is left");
    assert!(rt; book.has_member(&member(1, 5)) && book.has_rule(&rule(3, 7)));
    Ok(())
}

#[test]
fn numbers_go_round_past_those_held(rt: HostRuntime) -> Result<(), Fail> {
    let mut book = Book::new(rt.alloc())?;
    assert_eq!(rt; book.free_number(0), 1);
    assert_eq!(rt; book.free_number(254), 255);
    assert_eq!(rt; book.free_number(255), 1);
    assert!(rt; book.add_member(member(1, 1)) && book.add_member(member(255, 2)));
    assert_eq!(rt; book.free_number(255), 2);
    assert_eq!(rt; book.free_number(254), 2);
    assert!(rt; book.remove_member(1));
    assert_eq!(rt;
        book.free_number(1),
        2,
        "a freed number comes after going round"
    );
    Ok(())
}

#[test]
fn one_of_two_rules_that_match_is_enough(rt: HostRuntime) -> Result<(), Fail> {
    let mut book = Book::new(rt.alloc())?;
    let listener = member(1, 4);
    assert!(rt; book.add_member(listener));
    assert_eq!(rt; book.add_rule(rule(1, 7)), Ok(()));
    assert_eq!(rt; book.add_rule(rule(1, 0)), Ok(()));
    assert!(rt; book.receives(on_seven(Audience::Published), &listener));
    assert!(rt; book.remove_rule(&rule(1, 7)));
    assert!(rt; book.receives(on_seven(Audience::Published), &listener));
    assert!(rt; !book.receives(on_seven(Audience::Announced { domain: 0 }), &listener));
    assert!(rt; !book.receives(on_seven(Audience::Private { number: 1 }), &listener));
    Ok(())
}
