// The key stream of the zero key as RFC 8439's block function gives it: its first 32 bytes are
// 76b8e0ada0f13d90405d6ae55386bd28 and bdd219b8a08ded1aa836efcc8b770dc7.
// That of the key whose first byte is 1 and whose others are 0 begins with c5d30a7ce1ec119378c84f487d775a85, as the
// published test vectors of ChaCha20 with keys of 256 bits say.
use crate::Drawer;

#[test]
fn the_first_two_numbers_of_the_zero_seed(rt: HostRuntime) {
    let mut drawer = Drawer::new(0);
    let first = drawer.next(u128::MAX);
    assert_eq!(rt; first, 0x28bd8653e56a5d40903df1a0ade0b876);
    let second = drawer.next(u128::MAX);
    assert_eq!(rt; second, 0xc70d778bccef36a81aed8da0b819d2bd);
}

#[test]
fn two_of_five(rt: HostRuntime) {
    let mut drawer = Drawer::new(0);
    let first = drawer.next(5);
    let second = drawer.next(5);
    assert_eq!(rt; first, 3);
    assert_eq!(rt; second, 2);
}

#[test]
fn the_first_number_of_seed_one(rt: HostRuntime) {
    let mut drawer = Drawer::new(1);
    let first = drawer.next(u128::MAX);
    assert_eq!(rt; first, 0x855a777d484fc8789311ece17c0ad3c5);
}
