// What no clause says of counted keys: that calls succeed.
use counted_map::CountedMap;

#[test]
fn a_key_is_there_from_its_adding_to_its_removal(rt: HostRuntime) {
    let mut keys = CountedMap::<u32>::new(rt.alloc());
    assert!(rt; keys.least().is_none());
    assert!(rt; keys.add(7).is_ok());
    assert!(rt; keys.least() == Some(7));
    assert!(rt; keys.contains(7) && !keys.contains(3));
    keys.remove(3);
    keys.remove(7);
    assert!(rt; keys.least().is_none());
}
