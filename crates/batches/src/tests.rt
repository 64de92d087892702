// What a caller of `heads` gets and no batch asks for: where every head leads.
use super::*;

// LINE and CIRCLE too, which do not only move.
#[test]
fn every_head_leads_on(rt: HostRuntime) {
    let from = Point { x: 5, y: 0xFFFF };
    let cases = [
        (Head::Line { dx: 3, dy: 2 }, 106, 8, 1),
        (Head::Circle { radius: 9 }, 104, 5, 0xFFFF),
        (Head::AbsMov { x: 7, y: 6 }, 106, 7, 6),
        (Head::RelMov { dx: 0xFFFF, dy: 1 }, 106, 4, 0),
        (Head::Link { address: 20 }, 20, 5, 0xFFFF),
        (Head::Nop, 102, 5, 0xFFFF),
    ];
    for (head, pointer, x, y) in cases {
        let next = heads::moved_by(100, from, head);
        assert_eq!(rt; next.pointer, pointer);
        assert_eq!(rt; next.position.x, x);
        assert_eq!(rt; next.position.y, y);
    }
}
