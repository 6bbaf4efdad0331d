ghost use Rattle.std.specs.Prelude.{◌≡◌, ◌<◌, List, ◌∷◌, length};

use crate::Stack;

// An entry that is not `Copy`.
#[derive(PartialEq, Eq, Debug, Drop)]
struct Name {
    letter: char,
}

#[test]
fn an_entry_that_is_not_copied(rt: HostRuntime) {
    let mut slots = [Name { letter: 'x' }, Name { letter: 'y' }];
    let mut stack = Stack::new(&mut slots);
    assert_eq!(rt; stack.push(Name { letter: 'a' }), Ok(()));
    assert_eq!(rt; stack.push(Name { letter: 'b' }), Ok(()));
    assert_eq!(rt; stack.push(Name { letter: 'c' }), Err(Name { letter: 'c' }));
    assert_eq!(rt; stack.top(), Some(&Name { letter: 'b' }));
    assert!(rt; stack.discard());
    assert_eq!(rt; stack.top(), Some(&Name { letter: 'a' }));
    assert!(rt; stack.discard());
    assert!(rt; !stack.discard());
    assert_eq!(rt; stack.top(), None);
    assert_eq!(rt; slots, [Name { letter: 'a' }, Name { letter: 'b' }]);
}

// What the lender knows of its slice when the stack's life has ended.
fn write_first(slots: &mut [u32])
    requires { 0 < length slots.old }
    ensures { (e : _) (es : List _) → slots.old ≡ e ∷ es → slots.new ≡ 7 ∷ es }
{
    let mut stack = Stack::new(slots);
    stack.push(7).unwrap();
}

#[test]
fn a_lent_slice_comes_back(rt: HostRuntime) {
    let mut slots = [1, 2, 3];
    write_first(&mut slots);
    assert_eq!(rt; slots, [7, 2, 3]);
    let mut stack = Stack::new(&mut slots);
    assert_eq!(rt; stack.push(8), Ok(()));
    assert_eq!(rt; stack.push(9), Ok(()));
    assert_eq!(rt; stack.pop(), Some(9));
    assert_eq!(rt; stack.pop(), Some(8));
    assert_eq!(rt; stack.pop(), None);
    assert_eq!(rt; slots, [8, 9, 3]);
}
