// What no contract shows of the functions that take a refusal or a reply: that they take any.
use super::*;
use model::Geometry;

// A number that is no refusal of the paper's refuses too, with the record as it came or with another.
#[test]
fn any_number_refuses(rt: HostRuntime) {
    let row = Row {
        left: 0,
        top: 0,
        width: 0,
        height: 0,
        start: 0,
        len: 0,
    };
    let console = Console {
        geometry: Geometry {
            width: 0,
            height: 0,
            depth: 0,
        },
        count: 0,
        rows: [row; 8],
        panes: [fresh(); 8],
    };
    for number in [0, 13, 255] {
        assert_eq!(rt; refused(console, number).reply.err(), Some(number));
        let refusal = Err::<Reply, u8>(number);
        assert_eq!(rt;
            with_record(console, 7, fresh(), refusal).reply.err(),
            Some(number)
        );
    }
}
