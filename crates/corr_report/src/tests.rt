//! Lines as the formats write them, and what they leave of the buffer.

use super::{
    StatusLine, datagrams_line, inspect_refused, packet_line, pointer_line, refused_line,
    settings_line, status_line, stream_line, summary_line, usage,
};
use corr_model::{Ending, Pointer, Refusal};
use corr_settings::{Key, SetRefusal};
use corr_site::Text;
use spead_wire::decode;
use std::test::Fail;
use stream_feed::StreamReport;
use vis_send::Sent;

// A text as bytes.
fn same(line: &[u8], text: &str) -> bool {
    line == text.as_bytes()
}

#[test]
fn each_status_has_its_line(rt: HostRuntime) {
    let mut out = [b'-'; 1024];
    let len = status_line(&StatusLine::Sent(3), &mut out);
    assert!(rt; same(&out[..len], "sent 3 packets\n"));
    assert_eq!(rt; out[15], b'-');
    let len = status_line(&StatusLine::Simulated(3), &mut out);
    assert!(rt; same(&out[..len], "simulated 3 packets\n"));
    let len = status_line(&StatusLine::Relayed(0), &mut out);
    assert!(rt; same(&out[..len], "relayed 0 packets\n"));
    let len = status_line(&StatusLine::SourceFault(1), &mut out);
    assert!(rt; same(&out[..len], "source fault 1\n"));
    let len = status_line(&StatusLine::SettingsFault, &mut out);
    assert!(rt; same(&out[..len], "settings source fault\n"));
}

#[test]
fn refused_settings_have_their_line(rt: HostRuntime) -> Result<(), Fail> {
    let mut out = [0u8; 1024];
    let len = settings_line(&SetRefusal::Range(Key::HeapLimit, -4), &mut out);
    assert!(rt; same(&out[..len], "settings: range heap_limit -4\n"));
    let name = Text::new(rt.alloc(), "gain")?;
    let len = settings_line(&SetRefusal::Unknown(name), &mut out);
    assert!(rt; same(&out[..len], "settings: unknown gain\n"));
    let len = settings_line(&SetRefusal::TooLarge(1_343_559_436), &mut out);
    assert!(rt; same(&out[..len], "settings: too large 1343559436\n"));
    let len = refused_line(3, "NoStop", &mut out);
    assert!(rt; same(&out[..len], "refused 3 NoStop\n"));
    Ok(())
}

#[test]
fn the_usage_names_each_command(rt: HostRuntime) {
    let mut out = [0u8; 1024];
    let len = usage(&mut out);
    assert!(rt; out[..len].ends_with(b"spead_corr inspect IN\nspead_corr decode IN LIMIT\n"));
}

#[test]
fn a_summary_of_two_antennas(rt: HostRuntime) {
    let mut out = [0u8; 1024];
    let sent = Sent {
        packets: 3,
        bytes: 668,
        mark: 0x4e4e_a930_18d6_ba56,
    };
    let len = summary_line(&sent, &mut out);
    assert!(rt;
        same(
            &out[..len],
            "sent 3 packets 668 bytes mark 4e4ea93018d6ba56\n"
        )
    );
    let report = StreamReport {
        taken: 2,
        refused: 0,
        dropped: 0,
        stale: 0,
        evicted: 0,
        baddesc: 0,
        undescribed: 0,
        foreign: 0,
        before: 0,
        offgrid: 0,
        wild: 0,
        beyond: 0,
        late: 0,
        twice: 0,
        used: 2,
        ended: Some(Ending::End),
    };
    let len = stream_line(0, &report, &mut out);
    assert!(rt;
        same(
            &out[..len],
            "stream 0 taken 2 ended end refused 0 dropped 0 stale 0 evicted 0 baddesc 0 undescribed 0 foreign 0 before 0 offgrid 0 wild 0 beyond 0 late 0 twice 0 used 2\n"
        )
    );
}

// The first packet of the first worked example: counter 1, size 4, timestamp 0, antenna 0.
const FIRST: [u8; 68] = [
    0x53, 4, 2, 6, 0, 0, 0, 7, 0x80, 1, 0, 0, 0, 0, 0, 1, 0x80, 2, 0, 0, 0, 0, 0, 4, 0x80, 3, 0, 0,
    0, 0, 0, 0, 0x80, 4, 0, 0, 0, 0, 0, 4, 0x96, 0, 0, 0, 0, 0, 0, 0, 0xc1, 1, 0, 0, 0, 0, 0, 0,
    0x43, 0, 0, 0, 0, 0, 0, 0, 1, 2, 3, 0,
];

#[test]
fn packets_and_pointers_have_their_lines(rt: HostRuntime) {
    let mut out = [0u8; 1024];
    let Ok(packet) = decode(&FIRST) else {
        panic!(rt; "refused");
    };
    let len = packet_line(7, &packet, &mut out);
    assert!(rt;
        same(
            &out[..len],
            "7 counter 1 offset 0 length 4 size 4 pointers 3\n"
        )
    );
    let len = pointer_line(&Pointer::immediate(0x1600, 0x0102_0304_05ff), &mut out);
    assert!(rt; same(&out[..len], "  i 1600 0102030405ff\n"));
    let len = pointer_line(&Pointer::addressed(0x4300, 0), &mut out);
    assert!(rt; same(&out[..len], "  a 4300 000000000000\n"));
    let len = inspect_refused(8, &Refusal::Length(5, 4), &mut out);
    assert!(rt; same(&out[..len], "8 refused Length\n"));
    let len = datagrams_line(9, &mut out);
    assert!(rt; same(&out[..len], "datagrams 9\n"));
}
