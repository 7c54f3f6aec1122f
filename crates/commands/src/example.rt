//! The lines of an example in the texts of help.

/// A text of help with the lines of an example between its two parts, as words of `printf`: an AS
/// and its parent, and what is done in their network up to a packet from the AS to its parent.
#[macro_export]
macro_rules! with_example {
    ($before:literal, $after:literal) => {
        concat!(
            $before,
            "    '\
{\"ases\":[{\"ia\":\"1-ff00:0:110\",\"core\":true,\"exp\":63,\"key\":\"6130\",\"routers\":1},\
{\"ia\":\"1-ff00:0:111\",\"core\":false,\"exp\":63,\"key\":\"6131\",\"routers\":1}],\
\"links\":[{\"kind\":\"child\",\"a\":{\"ia\":\"1-ff00:0:110\",\"if\":1,\"router\":0},\
\"b\":{\"ia\":\"1-ff00:0:111\",\"if\":1,\"router\":0}}]}' \\
    '{\"do\":\"tick\",\"now\":1000}' \\
    '{\"do\":\"originate\",\"ia\":\"1-ff00:0:110\",\"egress\":1,\"beta0\":4660}' \\
    '{\"do\":\"terminate\",\"beacon\":0,\"ia\":\"1-ff00:0:111\"}' \\
    '{\"do\":\"ask\",\"src\":\"1-ff00:0:111\",\"dst\":\"1-ff00:0:110\",\"limit\":1}' \\
    '{\"do\":\"send\",\"ask\":0,\"path\":0,\"payload\":\"6869\"}'",
            $after
        )
    };
}
