//! The beginning of a page: its policy, which names the style and the scripts by their SHA-256 in base64. `bin/dev/page`
//! writes them here.

pub(crate) const HEAD: &[u8] = br##"<!doctype html>
<html lang="en">
<meta charset="utf-8">
<meta http-equiv="Content-Security-Policy" content="default-src 'none';
style-src 'sha256-N75GKtVsTjiduLXE4ROC9MTBay6+xiH9tBtgVX6PdMs=';
script-src 'sha256-74D5c9qLpxxQ+mFRgTMWzUbub57CPCL+R/5iocYsd/o='
'sha256-AiFdIq62ypkda4mAj2cibL7si+w680wPp/88BB8lIa4='
'sha256-tXethp3kOZq96p1dTFuTylTE2fqQ+Ht6iXPa+uAX7Zw='
'sha256-U6V2YPENT3l4C47nEZPDQUvbWdtSyh6DYZhEu7JfR9o=';
base-uri 'none'; form-action 'none'; require-trusted-types-for 'script'">
<meta name="viewport" content="width=device-width">
<title>redo</title>
<style>"##;
