//! Words of filter expressions. libpcap 1.10.3 refuses each of the texts with faults; numbers and addresses are examples of
//! pcap-filter(7), RFC 4291 and IANA's registries.

use expr_words::{
    Keyword, Name, NamedPort, Numbers, Protocol, Sign, Span, Transports, V4, Word, WordFaultKind,
    tokens,
};
use std::test::Fail;

#[test]
fn words_with_a_fault(rt: HostRuntime) -> Result<(), Fail> {
    let texts: [(&str, WordFaultKind, usize, usize); 6] = [
        ("host 10.0.0.256", WordFaultKind::Address, 6, 10),
        ("tcp port 080", WordFaultKind::Octal, 10, 3),
        ("0x100000000 = 5", WordFaultKind::Large, 1, 11),
        ("tcp @ udp", WordFaultKind::Character, 5, 1),
        ("\ttcp \\-", WordFaultKind::Character, 6, 1),
        ("host 1.2.3.4.5", WordFaultKind::Address, 6, 9),
    ];
    for (text, kind, column, width) in texts {
        let found = tokens(rt.alloc(), text.as_bytes()).err();
        let fault = found.ok_or("no fault")?;
        assert_eq!(rt; fault.kind, kind, "of {text}");
        assert_eq!(rt; fault.column, column, "of {text}");
        assert_eq!(rt; fault.width, width, "of {text}");
    }
    Ok(())
}

const NO_NUMBERS: Numbers = Numbers {
    ip: None,
    ether: None,
};

const TCP: Word = Word::Protocol(
    Protocol::Tcp,
    Numbers {
        ip: Some(6),
        ether: None,
    },
);

const HTTP: Word = Word::Name(Name {
    port: Some(NamedPort {
        number: 80,
        transports: Transports::Tcp,
    }),
    numbers: NO_NUMBERS,
    span: None,
});

const RANGE: Word = Word::Name(Name {
    port: None,
    numbers: NO_NUMBERS,
    span: Some(Span {
        first: 20,
        second: 21,
    }),
});

const NET: Word = Word::V4(V4 {
    address: 0x0a01_0000,
    bits: 16,
});

#[test]
fn words_of_each_kind(rt: HostRuntime) -> Result<(), Fail> {
    let text =
        "tcp[tcpflags]&0x12!=0&&port http or 20-21 net 10.1 ::1:2 2001:DB8::8:800:200C:417A 0:1:2:3:4:ff 00-01-02-03-04-05";
    let words = [
        TCP,
        Word::Sign(Sign::OpenBracket),
        Word::Number(13),
        Word::Sign(Sign::CloseBracket),
        Word::Sign(Sign::Ampersand),
        Word::Number(18),
        Word::Sign(Sign::NotEqual),
        Word::Number(0),
        Word::Keyword(Keyword::And),
        Word::Keyword(Keyword::Port),
        HTTP,
        Word::Keyword(Keyword::Or),
        RANGE,
        Word::Keyword(Keyword::Net),
        NET,
        Word::V6(0x1_0002),
        Word::V6(0x2001_0db8_0000_0000_0008_0800_200c_417a),
        Word::Mac(0x0001_0203_04ff),
        Word::Mac(0x0001_0203_0405),
    ];
    let found = tokens(rt.alloc(), text.as_bytes()).ok().ok_or("a fault")?;
    assert_eq!(rt; found.len(), words.len());
    for (token, word) in found.iter().zip(words.iter()) {
        assert_eq!(rt; token.word, *word, "at column {}", token.column);
    }
    Ok(())
}
